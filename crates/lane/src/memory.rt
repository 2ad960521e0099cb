// What a load and a store of a whole v128 do to the bytes once they are in hand. Those by shape are in its traits: `load_splat`, `load_lane`
// and `store_lane` of `Integer`, `load_extend_s` and `load_extend_u` of `Wide`, `load_zero` of `Unpacked`.
ghost use Rattle.std.specs.Prelude.{◌≡◌};
ghost use Rattle.operation.specs.Op.{Whole, loaded};

use crate::V128;

impl V128 {
    pub fn load(m: V128) -> V128
        ensures { result.bytes ≡ loaded Whole m.bytes }
    {
        m
    }

    pub fn store(a: V128) -> V128
        ensures { result.bytes ≡ a.bytes }
    {
        a
    }
}
