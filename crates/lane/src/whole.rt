// The operations of v128 as 128 bits, under their names, a byte at a time.
ghost use Rattle.std.specs.Prelude.{◌≡◌};
ghost use Rattle.operation.specs.Op.{Not, And, Andnot, Or, Xor, AnyTrue, unary, binary, test, bitselect};

use crate::V128;
use crate::lanes::lanewise::{lanewise1, lanewise2};
use crate::lanes::testing;
use scalar::I8x16;

impl V128 {
    pub fn constant(bytes: [u8; 16]) -> V128
        ensures { result.bytes ≡ bytes }
    {
        V128 { bytes }
    }

    pub fn not(a: V128) -> V128
        ensures { result.bytes ≡ unary Not a.bytes }
    {
        lanewise1::<I8x16, _>(a, |x| !x)
    }

    pub fn and(a: V128, b: V128) -> V128
        ensures { result.bytes ≡ binary And a.bytes b.bytes }
    {
        lanewise2::<I8x16, _>(a, b, |x, y| x & y)
    }

    pub fn andnot(a: V128, b: V128) -> V128
        ensures { result.bytes ≡ binary Andnot a.bytes b.bytes }
    {
        lanewise2::<I8x16, _>(a, b, |x, y| x & (!y))
    }

    pub fn or(a: V128, b: V128) -> V128
        ensures { result.bytes ≡ binary Or a.bytes b.bytes }
    {
        lanewise2::<I8x16, _>(a, b, |x, y| x | y)
    }

    pub fn xor(a: V128, b: V128) -> V128
        ensures { result.bytes ≡ binary Xor a.bytes b.bytes }
    {
        lanewise2::<I8x16, _>(a, b, |x, y| x ^ y)
    }

    // The bits of a where c has a one, those of b elsewhere.
    pub fn bitselect(a: V128, b: V128, c: V128) -> V128
        ensures { result.bytes ≡ bitselect a.bytes b.bytes c.bytes }
    {
        V128::or(V128::and(a, c), V128::andnot(b, c))
    }

    pub fn any_true(a: V128) -> u32
        ensures { result ≡ test AnyTrue a.bytes }
    {
        testing::any_true(a)
    }
}
