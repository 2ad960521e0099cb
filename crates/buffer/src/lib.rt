// Bytes put into a buffer: the one copy that the crates above make, and laws of what it leaves.
#![tactic(auto)]

ghost use Rattle.std.specs.Prelude.{◌≡◌, ◌≤◌, ◌++◌, length, take, drop};

// Copies all of `src` to the front of `dst`, and answers how many bytes that is; the rest of `dst` stays.
pub fn copy(src: &[u8], dst: &mut [u8]) -> usize
    requires { length src.now ≤ length dst.old }
    ensures { (result ≡ length src.now) × (dst.new ≡ take (length src.now) src.now ++ drop (length src.now) dst.old) }
{
    let n = src.len();
    dst[..n].copy_from_slice(src);
    n
}
