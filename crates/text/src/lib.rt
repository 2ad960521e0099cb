// Text in ASCII that grows in a buffer. Each function writes at place `at` of `out` and answers the place after what it wrote; without room it
// writes nothing and answers `at`.
#![tactic(auto)]

ghost use Rattle.std.specs.Prelude.{[], ◌∷◌};
ghost use Rattle.text.specs.Append.{Appends};
ghost use Rattle.text.specs.Decimal.{spelled};
ghost use Rattle.text.specs.Decimal.{decimal as Decimal·decimal};

pub fn push(b: u8, out: &mut [u8], at: usize) -> usize
    ensures { Appends (b ∷ []) out.old at result out.new }
{
    if at < out.len() {
        out[at] = b;
        return at + 1;
    }
    at
}

pub fn put(bytes: &[u8], out: &mut [u8], at: usize) -> usize
    ensures { Appends bytes.now out.old at result out.new }
{
    if out.len() < at {
        return at;
    }
    if out.len() - at < bytes.len() {
        return at;
    }
    at + buffer::copy(bytes, &mut out[at..])
}

pub fn decimal(n: u64, out: &mut [u8], at: usize) -> usize
    ensures { Appends (Decimal·decimal n) out.old at result out.new }
{
    let mut digits = [0u8; 20];
    let k = io::decimal(n, &mut digits);
    put(&digits[..k], out, at)
}

pub fn signed(n: i64, out: &mut [u8], at: usize) -> usize
    ensures { Appends (spelled n) out.old at result out.new }
{
    let size = n.unsigned_abs();
    if 0 <= n {
        return decimal(size, out, at);
    }
    if out.len() <= at {
        return at;
    }
    let first = at + 1;
    let end = decimal(size, out, first);
    if end == first {
        return at;
    }
    // the sign last, once the digits, of which there is at least one, have found room
    out[at] = b'-';
    end
}
