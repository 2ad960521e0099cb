// What the lines of cases.txt are made of: two digits at a column are a byte, and a digit that is none counts as 0.
ghost use Rattle.std.specs.Prelude.{◌+◌, ◌<◌, ◌≤◌, length};

use lane::V128;

pub(crate) fn byte_at(line: &[u8], column: usize) -> u8
    requires { column + 2 ≤ length line.now }
{
    16 * digit(line[column]) + digit(line[column + 1])
}

pub(crate) fn vector_at(line: &[u8], column: usize) -> V128
    requires { column + 32 ≤ length line.now }
{
    let mut bytes = [0; 16];
    for (i, byte) in bytes.iter_mut().enumerate() {
        *byte = byte_at(line, column + 2 * i);
    }
    V128 { bytes }
}

fn digit(code: u8) -> u8
    ensures { result < 16 }
{
    match code {
        b'0'..=b'9' => code - b'0',
        b'a'..=b'f' => code - b'a' + 10,
        _ => 0,
    }
}
