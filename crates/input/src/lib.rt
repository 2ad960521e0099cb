// An input, as standard input, to its end or until it is too long for a strip.
#![tactic(auto)]

ghost use Rattle.std.specs.Prelude.{◌-◌, ◌≤◌, ◌≡◌, IfOk, length, take};

use std::io;
use std::io::Read;

// A byte past the limit tells that a file is too long.
pub const ENOUGH: usize = limits::FILE + 1;

// A read may bring fewer bytes than there is room for: only one that brings none is the end, and no `for` counts the place.
pub fn read_all<R: Read>(from: &mut R, buf: &mut [u8]) -> io::Result<usize>
    ensures { IfOk result (λ n. n ≤ length buf.new) }
{
    let mut n = 0;
    while n < buf.len() {
        let more = read_on(from, buf, n)?;
        if more == 0 {
            break;
        }
        n += more;
    }
    Ok(n)
}

// One read, after the n bytes that are there: they stay.
fn read_on<R: Read>(from: &mut R, buf: &mut [u8], n: usize) -> io::Result<usize>
    requires { n ≤ length buf.old }
    ensures inside { IfOk result (λ more. more ≤ length buf.new - n) }
    ensures buf_unchanged { take n buf.new ≡ take n buf.old }
{
    from.read(&mut buf[n..])
}
