// A lane of one's own, which writes none of the functions that `Lane` has a body of.
ghost use Rattle.std.specs.Int.{w8};

use crate::lane::Lane;
use std::test::Fail;

#[derive(Clone, Copy)]
struct Byte {
    bits: u8,
}

impl Lane for Byte {
    ghost width = { w8 };

    ghost bits = { λ x. x.bits };

    fn add(self, y: Byte) -> Byte {
        Byte {
            bits: Lane::add(self.bits, y.bits),
        }
    }

    fn sub(self, y: Byte) -> Byte {
        Byte {
            bits: Lane::sub(self.bits, y.bits),
        }
    }

    fn mul(self, y: Byte) -> Byte {
        Byte {
            bits: Lane::mul(self.bits, y.bits),
        }
    }

    fn neg(self) -> Byte {
        Byte {
            bits: Lane::neg(self.bits),
        }
    }

    fn abs(self) -> Byte {
        Byte {
            bits: Lane::abs(self.bits),
        }
    }

    fn shl(self, n: u32) -> Byte {
        Byte {
            bits: Lane::shl(self.bits, n),
        }
    }

    fn shr_s(self, n: u32) -> Byte {
        Byte {
            bits: self.bits.shr_s(n),
        }
    }

    fn shr_u(self, n: u32) -> Byte {
        Byte {
            bits: self.bits.shr_u(n),
        }
    }

    fn equal(self, y: Byte) -> bool {
        self.bits.equal(y.bits)
    }

    fn less_s(self, y: Byte) -> bool {
        self.bits.less_s(y.bits)
    }

    fn less_u(self, y: Byte) -> bool {
        self.bits.less_u(y.bits)
    }

    fn mask(holds: bool) -> Byte {
        Byte {
            bits: u8::mask(holds),
        }
    }
}

#[test]
fn at_most_is_of_signed_bytes() -> Result<(), Fail> {
    for (x, y, holds) in [
        (5, 7, true),
        (7, 7, true),
        (7, 5, false),
        (0x80, 0x7f, true),
        (0x7f, 0x80, false),
        (0xff, 0, true),
    ] {
        let found = Byte { bits: x }.at_most_s(Byte { bits: y });
        (found == holds).then_some(()).ok_or((x, y))?;
    }
    Ok(())
}
