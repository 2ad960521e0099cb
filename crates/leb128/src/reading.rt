// Reading a number.
ghost use Rattle.std.specs.Prelude.{◌≡◌, true, ◌<◌};
ghost use Rattle.leb128.specs.Promise.{ReadsNumber};
ghost use Rattle.leb128.specs.Inner.Room.{allowed_in, extended_to};

use crate::Format;

// A number as its bits, and how many bytes it takes.
#[derive(Clone, Copy, Debug, PartialEq, Eq)]
pub struct Number {
    pub value: u64,
    pub len: usize,
}

// Why there is none: the bytes end before it does, or are none of this format.
#[derive(Clone, Copy, Debug, PartialEq, Eq)]
pub enum NoNumber {
    Short,
    Wrong,
}

// What stands at a place. `room` is the largest number of the bits still open, so no shift is needed.
// The loop leaves by `break`, as the project has it.
pub fn read<F: Format>(s: &[u8], at: usize) -> Result<Number, NoNumber>
    ensures { ReadsNumber F.SIGNED F.width s.now at result }
{
    let signed = F::SIGNED;
    let mut room = F::TOP;
    let mut scale: u64 = 1;
    let mut value: u64 = 0;
    let mut i = at;
    loop {
        if s.len() <= i {
            break Err(NoNumber::Short);
        }
        let b = u64::from(s[i]);
        if b < 128 {
            if allowed(b, room, signed) {
                break Ok(Number {
                    value: value + extended(b, room, signed) * scale,
                    len: i + 1 - at,
                });
            }
            break Err(NoNumber::Wrong);
        }
        if room < 128 {
            break Err(NoNumber::Wrong);
        }
        value += (b - 128) * scale;
        scale *= 128;
        room /= 128;
        i += 1;
    }
}

// A last byte stays within the bits that are open.
fn allowed(b: u64, room: u64, signed: bool) -> bool
    requires { b < 128 }
    ensures { result ≡ allowed_in signed room b }
{
    if signed {
        if b < 64 {
            b <= room / 2
        } else {
            127 - b <= room / 2
        }
    } else {
        b <= room
    }
}

// A last byte as the bits that are open: a negative one fills them with ones.
fn extended(b: u64, room: u64, signed: bool) -> u64
    requires { (b < 128) × (allowed_in signed room b ≡ true) }
    ensures { result ≡ extended_to signed room b }
{
    if signed {
        if b < 64 { b } else { room - (127 - b) }
    } else {
        b
    }
}
