// The operations that one shape alone has, under their names without it.
ghost use Rattle.std.specs.Prelude.{◌≡◌, ◌<◌};
ghost use Rattle.operation.specs.Vector.{Sixteen};
ghost use Rattle.operation.specs.Op.{DotS, Popcnt, Q15mulrSatS, Swizzle, unary, binary};
ghost use Rattle.lane.specs.Answer.{vector_answer, shuffle};

use crate::laid::Laid;
use crate::lanes::choosing::{byte_or_0, gather, indices_fit};
use crate::lanes::counting::ones_of_bytes;
use crate::lanes::each::each_lane;
use crate::lanes::lanewise::{lanewise1, lanewise2};
use crate::{NoSuchLane, V128};
use scalar::{I8x16, I16x8, I32x4, I64x2};

// i8x16.popcnt, by words of eight lanes
pub fn popcnt(a: V128) -> V128
    ensures { result.bytes ≡ unary Popcnt a.bytes }
{
    lanewise1::<I64x2, _>(a, |word| ones_of_bytes(word))
}

// i8x16.swizzle
pub fn swizzle(a: V128, b: V128) -> V128
    ensures { result.bytes ≡ binary Swizzle a.bytes b.bytes }
{
    each_lane::<I8x16, _>(
        |i|
            requires { (i < 16) × Sixteen a.bytes × Sixteen b.bytes }
        { byte_or_0(&a.bytes, I8x16::get(&b.bytes, i)) },
    )
}

// i8x16.shuffle: the indices are the sixteen bytes of s.
pub fn shuffle(a: V128, b: V128, s: V128) -> Result<V128, NoSuchLane>
    ensures { vector_answer result ≡ shuffle a.bytes b.bytes s.bytes }
{
    if indices_fit(s) {
        Ok(gather(a, b, s))
    } else {
        Err(NoSuchLane)
    }
}

// i16x8.q15mulr_sat_s
pub fn q15mulr_sat_s(a: V128, b: V128) -> V128
    ensures { result.bytes ≡ binary Q15mulrSatS a.bytes b.bytes }
{
    lanewise2::<I16x8, _>(a, b, |x, y| scalar::q15mulr_sat_s16(x, y))
}

// i32x4.dot_i16x8_s
pub fn dot_i16x8_s(a: V128, b: V128) -> V128
    ensures { result.bytes ≡ binary DotS a.bytes b.bytes }
{
    each_lane::<I32x4, _>(
        |i|
            requires { (i < 4) × Sixteen a.bytes × Sixteen b.bytes }
        {
            let low_a = I16x8::get(&a.bytes, 2 * i);
            let low_b = I16x8::get(&b.bytes, 2 * i);
            let high_a = I16x8::get(&a.bytes, 2 * i + 1);
            let high_b = I16x8::get(&b.bytes, 2 * i + 1);
            scalar::dot_s16(low_a, low_b, high_a, high_b)
        },
    )
}
