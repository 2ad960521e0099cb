// Kinds as the bytes of one number, four at most.
ghost use Rattle.std.specs.Prelude.{◌+◌, ◌≤◌, ◌<◌, ◌^◌, ◌≡◌, List, map, length, drop};
ghost use Rattle.limits.specs.Limits.{result_limit};
ghost use Rattle.operation.specs.Vector.{number};
ghost use Rattle.opcode.specs.Kind.{Kind, kind_byte};
ghost use Rattle.checker.specs.Walk.{KindBytes};
ghost use Rattle.checker.specs.Inner.Blocks.{top_first};

// The n kinds from a place of the strip on, the last one lowest.
pub(crate) fn top_first(strip: &[u8], from: usize, n: usize) -> u64
    requires { (from + n ≤ length strip.now) × (n ≤ result_limit) }
    ensures { (result < 2 ^ 32) × ((ks : List Kind) → KindBytes (drop from strip.now) n ks → top_first ks ≡ result) }
{
    let end = from + n;
    let mut all = 0;
    for kind in &strip[from..end] {
        all = all % 0x100_0000 * 256 + u64::from(*kind);
    }
    all
}

// The first one lowest. The loop stays a `while`: a number's bytes are no collection.
pub(crate) fn flipped(kinds: u64) -> u64
    ensures { (ks : List Kind) → length ks ≤ result_limit → top_first ks ≡ kinds → number (map kind_byte ks) ≡ result }
{
    let mut left = kinds;
    let mut all = 0;
    while left != 0 {
        all = all % 0x100_0000 * 256 + left % 256;
        left /= 256;
    }
    all
}
