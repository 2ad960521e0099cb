// What the shapes of 16 and 32 bits have: sums of pairs of neighbouring lanes of half the width.
ghost use Rattle.std.specs.Prelude.{◌≡◌};
ghost use Rattle.scalar.specs.Scalar.{S, U};
ghost use Rattle.operation.specs.Op.{ExtaddPairwise, unary};

use crate::V128;
use crate::lanes::pairing::pairs;
use crate::wide::Wide;
use scalar::{I16x8, I32x4, Shape, Small};

pub trait Paired: Wide<Half: Shape<Lane: Small>> {
    fn extadd_pairwise_s(a: V128) -> V128
        ensures { result.bytes ≡ unary (ExtaddPairwise S Self.Lane.width) a.bytes }
    {
        pairs::<Self, Self::Half, _>(a, |x, y| x.extadd_s(y))
    }

    fn extadd_pairwise_u(a: V128) -> V128
        ensures { result.bytes ≡ unary (ExtaddPairwise U Self.Lane.width) a.bytes }
    {
        pairs::<Self, Self::Half, _>(a, |x, y| x.extadd_u(y))
    }
}

impl Paired for I16x8 {}

impl Paired for I32x4 {}
