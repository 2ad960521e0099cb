// Fields of a text's lines, apart by single blanks.
ghost use Rattle.std.specs.Prelude.{◌<◌, ◌≤◌, IfSome, length};

// The text from a field on, or from a line on: bytes whose digits are odd go on in the line below.
#[derive(Clone, Copy)]
pub(crate) struct Field<'a> {
    pub(crate) text: &'a [u8],
}

impl<'a> Field<'a> {
    // Of its line the field of this number, itself being number 0.
    pub(crate) fn field(self, number: usize) -> Field<'a> {
        let mut field = self;
        for _ in 0..number {
            field = field.next();
        }
        field
    }

    // The one after it; the line's end if none is.
    fn next(self) -> Field<'a> {
        let text = self.text;
        for (i, byte) in text.iter().enumerate() {
            match *byte {
                b' ' => return Field {
                    text: &text[i + 1..],
                },
                b'\n' => return Field { text: &text[i..] },
                _ => (),
            }
        }
        Field { text: &[] }
    }

    // Its decimal digits, of which nine count; 0 if there are none.
    pub(crate) fn number(self) -> usize {
        let mut n = 0;
        for code in self.text {
            if !code.is_ascii_digit() || n > 99_999_999 {
                break;
            }
            n = 10 * n + usize::from(*code - b'0');
        }
        n
    }

    // Puts its bytes into the room, as many as that takes, and answers how many: pairs of hex digits, up to one that begins with none. `-` is none.
    pub(crate) fn bytes(self, room: &mut [u8]) -> usize
        ensures { result ≤ length room.new }
    {
        let mut n = 0;
        for pair in self.text.chunks_exact(2) {
            let Some(high) = digit(pair[0]) else {
                break;
            };
            if n == room.len() {
                break;
            }
            room[n] = 16 * high + digit(pair[1]).unwrap_or(0);
            n += 1;
        }
        n
    }

    // To its line's end, with the newline that is there but where the text ends without one.
    pub(crate) fn line(self) -> &'a [u8]
        ensures within { length result.now ≤ length self.entry.text.now }
        ensures some { 0 < length self.entry.text.now → 0 < length result.now }
    {
        let text = self.text;
        for (i, byte) in text.iter().enumerate() {
            if *byte == b'\n' {
                return &text[..i + 1];
            }
        }
        text
    }

    // The line below.
    pub(crate) fn below(self) -> Field<'a>
        ensures { 0 < length self.entry.text.now → length result.text.now < length self.entry.text.now }
    {
        let len = self.line().len();
        Field {
            text: &self.text[len..],
        }
    }
}

fn digit(code: u8) -> Option<u8>
    ensures { IfSome result (λ value. value < 16) }
{
    match code {
        b'0'..=b'9' => Some(code - b'0'),
        b'a'..=b'f' => Some(code - b'a' + 10),
        _ => None,
    }
}
