// What the shapes of 8, 16 and 32 bits have: unsigned comparisons, the lesser and the greater.
ghost use Rattle.std.specs.Prelude.{◌≡◌};
ghost use Rattle.scalar.specs.Scalar.{S, U};
ghost use Rattle.operation.specs.Op.{Ge, Gt, Le, Lt, Max, Min, binary};

use crate::V128;
use crate::integer::Integer;
use crate::lanes::lanewise::lanewise2;
use scalar::{I8x16, I16x8, I32x4, Lane};

pub trait Ordered: Integer {
    fn lt_u(a: V128, b: V128) -> V128
        ensures { result.bytes ≡ binary (Lt U Self.Lane.width) a.bytes b.bytes }
    {
        lanewise2::<Self, _>(a, b, |x, y| Self::Lane::mask(x.less_u(y)))
    }

    fn gt_u(a: V128, b: V128) -> V128
        ensures { result.bytes ≡ binary (Gt U Self.Lane.width) a.bytes b.bytes }
    {
        lanewise2::<Self, _>(a, b, |x, y| Self::Lane::mask(y.less_u(x)))
    }

    fn le_u(a: V128, b: V128) -> V128
        ensures { result.bytes ≡ binary (Le U Self.Lane.width) a.bytes b.bytes }
    {
        lanewise2::<Self, _>(a, b, |x, y| Self::Lane::mask(!y.less_u(x)))
    }

    fn ge_u(a: V128, b: V128) -> V128
        ensures { result.bytes ≡ binary (Ge U Self.Lane.width) a.bytes b.bytes }
    {
        lanewise2::<Self, _>(a, b, |x, y| Self::Lane::mask(!x.less_u(y)))
    }

    fn min_s(a: V128, b: V128) -> V128
        ensures { result.bytes ≡ binary (Min S Self.Lane.width) a.bytes b.bytes }
    {
        lanewise2::<Self, _>(a, b, |x, y| if x.less_s(y) { x } else { y })
    }

    fn min_u(a: V128, b: V128) -> V128
        ensures { result.bytes ≡ binary (Min U Self.Lane.width) a.bytes b.bytes }
    {
        lanewise2::<Self, _>(a, b, |x, y| if x.less_u(y) { x } else { y })
    }

    fn max_s(a: V128, b: V128) -> V128
        ensures { result.bytes ≡ binary (Max S Self.Lane.width) a.bytes b.bytes }
    {
        lanewise2::<Self, _>(a, b, |x, y| if x.less_s(y) { y } else { x })
    }

    fn max_u(a: V128, b: V128) -> V128
        ensures { result.bytes ≡ binary (Max U Self.Lane.width) a.bytes b.bytes }
    {
        lanewise2::<Self, _>(a, b, |x, y| if x.less_u(y) { y } else { x })
    }
}

impl Ordered for I8x16 {}

impl Ordered for I16x8 {}

impl Ordered for I32x4 {}
