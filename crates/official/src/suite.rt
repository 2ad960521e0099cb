// A text of the suite, line by line.
ghost use Rattle.std.specs.Prelude.{◌≤◌, length};

use crate::count::Count;
use crate::expected::{Expected, UNTOUCHED};
use crate::field::Field;
use crate::outcome::Outcome;
use crate::reason::Reason;
use hexadecimal::Unminded;
use std::io;

// As many strips are kept.
const STRIPS: usize = 2048;

// The bytes of memory that a group of cases can share.
const MEMORY: usize = 65536;

// For the bytes of a strip, and for those of a call's arguments.
const ROOM: usize = 256;

// The strips by their numbers, of the memory how much the group of cases at hand is lent, whether a line has been read, how many cases there
// were so far of the file at hand, and of those before it.
#[derive(Drop)]
pub(crate) struct Suite<'a> {
    out: Unminded<'a>,
    strips: [Field<'a>; STRIPS],
    memory: [u8; MEMORY],
    lent: usize,
    begun: bool,
    file: Count,
    before: Count,
}

impl<'a> Suite<'a> {
    // A strip that no line has is what the text begins with.
    pub(crate) fn of(out: Unminded<'a>, text: &'a [u8]) -> Suite<'a> {
        Suite {
            out,
            strips: [Field { text }; STRIPS],
            memory: [0; MEMORY],
            lent: 0,
            begun: false,
            file: Count::default(),
            before: Count::default(),
        }
    }

    // A line's first letter tells its sort.
    pub(crate) fn line(&mut self, line: Field<'a>) -> io::Result<()> {
        match line.text {
            [b'f', ..] => self.file(line.field(1))?,
            [b'm', ..] => self.memory(line.field(1)),
            [b'd', ..] => self.data(line),
            [b's', ..] => self.strip(line),
            [b'c', ..] => self.call(line)?,
            [b't', ..] => self.case(line, Expected::Trap)?,
            [b'r', ..] => self.refuse(line)?,
            _ => (),
        }
        self.begun = true;
        Ok(())
    }

    // Ends the line of the last file, and prints that of all.
    pub(crate) fn end(&self) -> io::Result<()> {
        self.end_file()?;
        println!(self.out; "all {}", self.before + self.file)
    }

    fn end_file(&self) -> io::Result<()> {
        println!(self.out; " {}", self.file)
    }

    // file NAME: ends the line of the file before, unless the text begins here, and begins its own.
    fn file(&mut self, name: Field) -> io::Result<()> {
        if self.begun {
            self.end_file()?;
        }
        self.before = self.before + self.file;
        self.file = Count::default();
        match name.line().split_last() {
            Some((_, name)) => self.out.write_all(name),
            None => Ok(()),
        }
    }

    // memory N: that many bytes, all zero; `memory skip` is none.
    fn memory(&mut self, len: Field) {
        let len = len.number().min(MEMORY);
        self.memory[..len].fill(0);
        self.lent = len;
    }

    // data OFFSET BYTES
    fn data(&mut self, line: Field) {
        let offset = line.field(1).number().min(MEMORY);
        line.field(2).bytes(&mut self.memory[offset..]);
    }

    // strip ID BYTES
    fn strip(&mut self, line: Field<'a>) {
        let id = line.field(1).number();
        if id < STRIPS {
            self.strips[id] = line.field(2);
        }
    }

    // call ID ARGS RESULTS
    fn call(&mut self, line: Field) -> io::Result<()> {
        let mut results = UNTOUCHED;
        line.field(3).bytes(&mut results);
        self.case(line, Expected::Results(results))
    }

    // refuse ID # WHY
    fn refuse(&mut self, line: Field) -> io::Result<()> {
        let why = Reason::said(line.field(3));
        self.case(line, Expected::Refusal(why))
    }

    // As many of a strip's bytes as there is room for.
    fn strip_of(&self, id: usize, room: &mut [u8]) -> usize
        ensures { result ≤ length room.new }
    {
        match self.strips.get(id) {
            Some(strip) => strip.bytes(room),
            None => 0,
        }
    }

    // Each has the strip's ID and its ARGS; `trap ID ARGS` has no more. A case that differs is printed: its line, which has what was expected, and
    // below it what was answered.
    fn case(&mut self, line: Field, expected: Expected) -> io::Result<()> {
        let mut strip = [0; ROOM];
        let strip_len = self.strip_of(line.field(1).number(), &mut strip);
        let mut args = [0; ROOM];
        let args_len = line.field(2).bytes(&mut args);
        let lent = self.lent.min(MEMORY);
        let outcome = Outcome::of(
            &strip[..strip_len],
            &args[..args_len],
            &mut self.memory[..lent],
        );
        let held = outcome.is(&expected);
        if !held {
            print!(self.out; "\n  ")?;
            self.out.write_all(line.line())?;
            print!(self.out; "{outcome}")?;
        }
        self.file = self.file + expected.counted(held);
        Ok(())
    }
}
