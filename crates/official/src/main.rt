// Runs the official WebAssembly tests that fit strips: data/official-simd.txt, of version 1, and data/official-control.txt, of version 2;
// README.md says how their lines are read. Prints for each file of the suite how many cases it has and how many of them differ, and
// after those of each text the same of all.
#![tactic(auto)]

mod count;
mod expected;
mod field;
mod outcome;
mod reason;
mod suite;

ghost use Rattle.std.specs.Prelude.{◌≡◌, length};

use field::Field;
use hexadecimal::Unminded;
use std::fs::File;
use std::io;
use std::io::{Error, ErrorKind};
use suite::Suite;

fn main(rt: HostRuntime) -> io::Result<()> {
    text_at(&rt, "official-simd.txt")?;
    text_at(&rt, "official-control.txt")
}

// What lies past the room is not read.
fn text_at(rt: &HostRuntime, path: &str) -> io::Result<()> {
    let mut file = File::open(rt, path)?;
    let mut room = room();
    let Ok(len) = input::read_all(&mut file, &mut room) else {
        return Err(Error::new(ErrorKind::Other, "a text cannot be read"));
    };
    let text = &room[..len];
    let mut suite = Suite::of(Unminded(rt), text);
    let mut line = Field { text };
    while !line.text.is_empty() {
        suite.line(line)?;
        line = line.below();
    }
    suite.end()
}

// For the whole text.
fn room() -> [u8; 1048576]
    ensures { 1048576 ≡ length result }
{
    [0; 1048576]
}
