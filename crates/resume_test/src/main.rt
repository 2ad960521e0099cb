// Runs in slices (requests C-14, C-15), as the lines of data/cases.txt say: budgets that are cut, and images that are good or not. Each line says
// what was answered and what was left: the results, each part of the memory that has changed, and the image. stdout was worked out by
// bench/resume_cases, an interpreter in C that was written from documents 01 and 02 with no use of this code, before this was first run.
#![tactic(auto)]

mod cutting;
mod digest;
mod judging;
mod lent;
mod picture;

use cases::{Case, Fields};
use std::fs::File;
use std::io;

// More than the file has. Of a longer one no more is read than that.
const TEXT: usize = 65536;

fn main(rt: HostRuntime) -> io::Result<()> {
    let mut file = File::open(&rt, "cases.txt")?;
    let mut text = [0; TEXT];
    let Ok(len) = input::read_all(&mut file, &mut text) else {
        return Err(io::Error::new(io::ErrorKind::Other, "cases.txt cannot be read"));
    };
    lines(&rt, &text[..len])
}

fn lines(rt: &HostRuntime, text: &[u8]) -> io::Result<()> {
    for line in text.split(|byte| *byte == b'\n') {
        done(rt, line)?;
    }
    Ok(())
}

// The first letter of a line's first word tells what is done.
fn done(rt: &HostRuntime, line: &[u8]) -> io::Result<()> {
    let mut fields = Fields::of(line);
    let case = Case::of(rt, &mut fields)?;
    match line {
        [b's', ..] => cutting::slices(&case, fields),
        [b'c', ..] => cutting::cut(&case, fields),
        [b'r', ..] => judging::resume(&case, fields),
        [b'p', ..] => judging::places(&case, fields),
        [b'b', ..] => judging::bytes(&case, fields),
        _ => Ok(()),
    }
}
