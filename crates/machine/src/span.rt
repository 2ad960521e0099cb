// A run of bytes read from a buffer, and one written to it: what the memory, the operand stack and the locals share.
ghost use Rattle.std.specs.Prelude.{◌≡◌, ◌+◌, ◌≤◌, length, take};
ghost use Rattle.machine.specs.Memory.{part, padded, stored};

use lane::V128;

// n bytes from a place on, with zeros after them.
pub(crate) fn read(s: &[u8], at: usize, n: usize) -> V128
    requires { (n ≤ 16) × (at + n ≤ length s.now) }
    ensures { result.bytes ≡ padded (part n at s.now) }
{
    let mut b = [0u8; 16];
    for k in 0..n {
        b[k] = s[at + k];
    }
    V128 { bytes: b }
}

// The first n bytes of a vector, from a place on.
pub(crate) fn write(s: &mut [u8], at: usize, v: V128, n: usize)
    requires { (n ≤ 16) × (at + n ≤ length s.old) }
    ensures { s.new ≡ stored s.old at (take n v.bytes) }
{
    let b = v.bytes;
    for k in 0..n {
        s[at + k] = b[k];
    }
}
