// Strips checked, run, rewritten and listed, as the lines of data/cases.txt say. One line each: the name, of a run its budget, then code, place and
// steps (of a rewriting or a listing the length); after them the results and each part of the memory that has changed, or the output; the text of a
// listing stands in the lines below. stdout was worked out by bench/strip_cases, a check, a run, a rewriter and a lister in C that were written from
// documents 01, 02 and 002 and Core's table of opcodes with no use of this code, that of request C-15's cases before they were first run here. What
// the older cases answer had been worked out before, by others in another language, and is the same but where a limit moved.
#![tactic(auto)]

mod calls;
mod outputs;

use cases::{Case, Fields};
use std::fs::File;
use std::io;

// More than the file has. Of a longer one no more is read than that.
const TEXT: usize = 131072;

fn main(rt: HostRuntime) -> io::Result<()> {
    let mut file = File::open(&rt, "cases.txt")?;
    let mut text = [0; TEXT];
    let Ok(len) = input::read_all(&mut file, &mut text) else {
        return Err(io::Error::new(io::ErrorKind::Other, "cases.txt cannot be read"));
    };
    lines(&rt, &text[..len])
}

fn lines(rt: &HostRuntime, text: &[u8]) -> io::Result<()> {
    for line in text.split(|byte| *byte == b'\n') {
        done(rt, line)?;
    }
    Ok(())
}

// A line's first word says what is done; the first letter tells all but two of them apart.
fn done(rt: &HostRuntime, line: &[u8]) -> io::Result<()> {
    let mut fields = Fields::of(line);
    let case = Case::of(rt, &mut fields)?;
    match line {
        [b'c', _, ..] => calls::check(&case),
        [b'r', b'o', ..] => outputs::rooms(&case, fields),
        [b'r', _, ..] => calls::run(&case, fields),
        [b'b', _, ..] => calls::budgets(&case, fields),
        [b's', _, ..] => outputs::shorten(&case, fields),
        [b'l', _, ..] => outputs::list(&case, fields),
        _ => Ok(()),
    }
}
