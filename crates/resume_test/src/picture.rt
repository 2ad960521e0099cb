// An image as cases.txt would have it, after a blank if there is any of it: a row of equal bytes is one item.
use std::fmt;

#[derive(Clone, Copy)]
pub(crate) struct Picture<'a>(pub(crate) &'a [u8]);

impl<'a> fmt::Display for Picture<'a> {
    // Single bytes stand together; else items have a full stop between them.
    fn fmt<W: fmt::Write>(&self, f: &mut fmt::Formatter<W>) -> fmt::Result {
        let bytes = self.0;
        let mut after_row = false;
        for (at, byte) in bytes.iter().enumerate() {
            if at > 0 && bytes[at - 1] == *byte {
                continue;
            }
            let row = bytes[at..].iter().take_while(|b| **b == *byte).count();
            if at == 0 {
                write!(f, " ")?;
            } else if row > 1 || after_row {
                write!(f, ".")?;
            }
            if row > 1 {
                write!(f, "{row}x")?;
            }
            write!(f, "{byte:02x}")?;
            after_row = row > 1;
        }
        Ok(())
    }
}
