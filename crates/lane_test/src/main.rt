// Runs every operation of lane on the cases of data/cases.txt. Prints for each its name, how many cases it has and how many
// of them failed, and last the same of all.
#![tactic(auto)]

mod apply;
mod count;
mod text;
mod value;

use apply::apply;
use count::Count;
use hexadecimal::Unminded;
use std::fs::File;
use std::io::{Error, ErrorKind, Result};
use text::{byte_at, vector_at};

// The length of a case's line: code, index, three arguments and the value answered.
const CASE: usize = 137;

// What lies past the room is not read.
fn main(rt: HostRuntime) -> Result<()> {
    let mut file = File::open(&rt, "cases.txt")?;
    let mut room = [0; 262144];
    let Ok(len) = input::read_all(&mut file, &mut room) else {
        return Err(Error::new(ErrorKind::Other, "cases.txt cannot be read"));
    };
    let mut tally = Tally::of(Unminded(&rt));
    // Each line ends with its last byte, a newline but where the text ends without one.
    if let Some((_, lines)) = room[..len].split_last() {
        for line in lines.split(|byte| *byte == b'\n') {
            tally.line(line)?;
        }
    }
    tally.end()
}

// After a line: the operation at hand, the count of its cases and that of all.
#[derive(Drop)]
struct Tally<'a> {
    out: Unminded<'a>,
    op: u8,
    own: Count,
    all: Count,
}

impl<'a> Tally<'a> {
    fn of(out: Unminded<'a>) -> Tally<'a> {
        Tally {
            out,
            op: 0,
            own: Count::default(),
            all: Count::default(),
        }
    }

    fn line(&mut self, line: &[u8]) -> Result<()> {
        match line {
            [] | [b'#', ..] => Ok(()),
            [b'o', ..] => self.operation(line),
            _ => {
                self.case(line);
                Ok(())
            }
        }
    }

    // op NUMBER NAME: ends the line of the operation before, if there is one, and begins its own.
    fn operation(&mut self, line: &[u8]) -> Result<()> {
        if self.own.cases > 0 {
            println!(self.out; " {}", self.own)?;
        }
        self.own = Count::default();
        self.op = 0;
        if line.len() >= 6 {
            self.op = byte_at(line, 3);
            self.out.write_all(&line[6..])?;
        }
        Ok(())
    }

    fn case(&mut self, line: &[u8]) {
        let held = holds(self.op, line);
        self.own.add(held);
        self.all.add(held);
    }

    fn end(&self) -> Result<()> {
        println!(self.out; " {}", self.own)?;
        println!(self.out; "all {}", self.all)
    }
}

// Whether the operation answers what the line says.
fn holds(op: u8, line: &[u8]) -> bool {
    if line.len() != CASE {
        return false;
    }
    let code = byte_at(line, 0);
    let index = byte_at(line, 3);
    let a = vector_at(line, 6);
    let b = vector_at(line, 39);
    let c = vector_at(line, 72);
    let expected = vector_at(line, 105);
    let got = apply(op, index, a, b, c);
    got.code == code && got.place == 0 && got.value.bytes == expected.bytes
}
