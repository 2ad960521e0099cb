// Writing a number in its shortest form.
ghost use Rattle.std.specs.Prelude.{◌≡◌, Bool, ◌+◌, ◌^◌, ◌<◌, ◌≤◌, length};
ghost use Rattle.std.proofs.lemmas.List.Edits.{sets};
ghost use Rattle.leb128.specs.Bits.{integer};
ghost use Rattle.leb128.specs.Shortest.{limit_of, low, shortest_of};
ghost use Rattle.leb128.specs.Promise.{WritesNumber, CountsBytes};
ghost use Rattle.leb128.specs.Inner.Room.{int};

use crate::Format;

// The place after the number; none where there is too little room for it.
pub fn write<F: Format>(out: &mut [u8], at: usize, v: F) -> Option<usize>
    ensures { WritesNumber F.SIGNED F.width (F.value v) at out.old result out.new }
{
    let z = integer_of(v);
    let n = len(v);
    if out.len() < n || out.len() - n < at {
        return None;
    }
    put(out, at, at + n, z, limit(F::SIGNED));
    Some(at + n)
}

// How many bytes that takes.
pub fn len<F: Format>(v: F) -> usize
    ensures { CountsBytes F.SIGNED F.width (F.value v) result }
{
    count(integer_of(v).n, limit(F::SIGNED))
}

// An integer by its sign: n, or -n - 1 where it is negative.
#[derive(Clone, Copy)]
struct Integer {
    negative: bool,
    n: u64,
}

// The bits of -n - 1 are the largest number less n.
fn integer_of<F: Format>(v: F) -> Integer
    ensures holds { int result.negative result.n ≡ integer F.SIGNED F.width (F.value v) }
    ensures fits { F.value v < 2 ^ F.width }
{
    let bits = v.value();
    if F::SIGNED && F::TOP / 2 < bits {
        Integer {
            negative: true,
            n: F::TOP - bits,
        }
    } else {
        Integer {
            negative: false,
            n: bits,
        }
    }
}

// From here on one byte does not hold it.
fn limit(signed: bool) -> u64
    ensures { result ≡ limit_of signed }
{
    if signed { 64 } else { 128 }
}

// One byte, and one more for each time that what is left has to be divided. No index is counted, and an iterator of quotients would be no plainer.
fn count(n: u64, limit: u64) -> usize
    requires { 64 ≤ limit }
    ensures { (neg : Bool) → result ≡ length (shortest_of limit (int neg n)) }
{
    let mut left = n;
    let mut bytes: usize = 1;
    while limit <= left {
        left /= 128;
        bytes += 1;
    }
    bytes
}

// From `at` up to `end`, where its bytes end.
fn put(out: &mut [u8], at: usize, end: usize, z: Integer, limit: u64)
    requires { (64 ≤ limit) × (end ≡ at + length (shortest_of limit (int z.negative z.n))) × (end ≤ length out.old) }
    ensures { out.new ≡ sets out.old at (shortest_of limit (int z.negative z.n)) }
{
    let mut rest = z.n;
    for i in at..end - 1 {
        out[i] = 128 + low_bits(z.negative, rest);
        rest /= 128;
    }
    out[end - 1] = low_bits(z.negative, rest);
}

fn low_bits(negative: bool, n: u64) -> u8
    ensures { (result ≡ low (int negative n)) × (result < 128) }
{
    let bits = (n % 128) as u8;
    if negative { 127 - bits } else { bits }
}
