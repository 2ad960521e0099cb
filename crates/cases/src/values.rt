// What a field says, where it is no word: a number, or bytes. Every field says something.
ghost use Rattle.std.specs.Prelude.{◌≡◌, ◌<◌, fold};
ghost use Rattle.io.specs.Counts.{IsPrefixLen};
ghost use Rattle.cases.specs.Fields.{digit_of, number_of};

use crate::reading::find;

// A number in decimal, or the largest of 32 bits where it is larger.
pub(crate) fn number(word: &[u8]) -> u32
    ensures { result ≡ number_of word.now }
{
    word.iter().fold(0u32, |value, c| {
        value
            .saturating_mul(10)
            .saturating_add(u32::from(digit(*c)))
    })
}

// Letters are read as hexadecimal has them, also in a number; any other byte is 0.
fn digit(c: u8) -> u8
    ensures value { result ≡ digit_of c }
    ensures small { result < 16 }
{
    match c {
        b'0'..=b'9' => c - b'0',
        b'a'..=b'f' => c - b'a' + 10,
        _ => 0,
    }
}

// Items with full stops between them, one after the other, while there is room.
pub(crate) fn items(word: &[u8], room: &mut [u8]) -> usize
    ensures { IsPrefixLen result room.new }
{
    let mut n = 0;
    for item in word.split(|b| *b == b'.') {
        n += put(item, &mut room[n..]);
    }
    n
}

// Hexadecimal digits, or a count, `x` and digits that are repeated so often.
fn put(item: &[u8], room: &mut [u8]) -> usize
    ensures { IsPrefixLen result room.new }
{
    let x = find(item, 0, b'x');
    let Some(digits) = item.get(x + 1..) else {
        return put_digits(item, room);
    };
    let mut n = 0;
    for _ in 0..number(&item[..x]) {
        let more = put_digits(digits, &mut room[n..]);
        if more == 0 {
            break;
        }
        n += more;
    }
    n
}

// Two digits a byte; a last one that stands alone is none.
fn put_digits(digits: &[u8], room: &mut [u8]) -> usize
    ensures { IsPrefixLen result room.new }
{
    let n = room.len().min(digits.len() / 2);
    for (byte, pair) in room[..n].iter_mut().zip(digits.chunks_exact(2)) {
        *byte = 16 * digit(pair[0]) + digit(pair[1]);
    }
    n
}
