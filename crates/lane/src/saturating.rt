// What the shapes of 8 and 16 bits have: saturating arithmetic, and the rounded average.
ghost use Rattle.std.specs.Prelude.{◌≡◌};
ghost use Rattle.scalar.specs.Scalar.{S, U};
ghost use Rattle.operation.specs.Op.{AddSat, AvgrU, SubSat, binary};

use crate::V128;
use crate::integer::Integer;
use crate::lanes::lanewise::lanewise2;
use scalar::{Shape, Small};

pub trait Saturating: Integer {
    fn add_sat_s(a: V128, b: V128) -> V128
        ensures { result.bytes ≡ binary (AddSat S Self.Lane.width) a.bytes b.bytes };

    fn add_sat_u(a: V128, b: V128) -> V128
        ensures { result.bytes ≡ binary (AddSat U Self.Lane.width) a.bytes b.bytes };

    fn sub_sat_s(a: V128, b: V128) -> V128
        ensures { result.bytes ≡ binary (SubSat S Self.Lane.width) a.bytes b.bytes };

    fn sub_sat_u(a: V128, b: V128) -> V128
        ensures { result.bytes ≡ binary (SubSat U Self.Lane.width) a.bytes b.bytes };

    fn avgr_u(a: V128, b: V128) -> V128
        ensures { result.bytes ≡ binary (AvgrU Self.Lane.width) a.bytes b.bytes };
}

impl<S: Integer + Shape<Lane: Small>> Saturating for S {
    fn add_sat_s(a: V128, b: V128) -> V128 {
        lanewise2::<S, _>(a, b, |x, y| x.add_sat_s(y))
    }

    fn add_sat_u(a: V128, b: V128) -> V128 {
        lanewise2::<S, _>(a, b, |x, y| x.add_sat_u(y))
    }

    fn sub_sat_s(a: V128, b: V128) -> V128 {
        lanewise2::<S, _>(a, b, |x, y| x.sub_sat_s(y))
    }

    fn sub_sat_u(a: V128, b: V128) -> V128 {
        lanewise2::<S, _>(a, b, |x, y| x.sub_sat_u(y))
    }

    fn avgr_u(a: V128, b: V128) -> V128 {
        lanewise2::<S, _>(a, b, |x, y| x.avgr_u(y))
    }
}
