// Instructions decoded, and what was decoded encoded again. Three lines a case: the answer and the instruction; the answer and the buffer,
// EE where nothing was written; what scanning answers, the kinds that the table has for it, and the id that fetching tells. stdout was
// worked out from documents 01, 02 and 002 by a decoder and an encoder written for that in another language, its kinds by the table of
// bench/, with no use of this code. Version 1 where none is named.
#![tactic(auto)]

mod decoding;
mod encoding;
mod row;

use hexadecimal::Unminded;
use std::io;

// It ends well, whatever standard output takes.
fn main(rt: HostRuntime) {
    let _ = cases(Unminded(&rt));
}

fn cases(out: Unminded) -> io::Result<()> {
    decoding::version_1(out)?;
    encoding::structs(out)?;
    decoding::version_2(out)?;
    encoding::orders(out)
}
