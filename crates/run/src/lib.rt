// A run with a budget, and a run that is resumed: what is asked first, then the instructions.
#![tactic(auto)]

mod arguments;
mod blocks;
mod ends;
mod questions;
mod resuming;
mod running;

ghost use Rattle.std.specs.Prelude.{◌≡◌};
ghost use Rattle.std.proofs.Math.Option.{none, some};
ghost use Rattle.run.specs.Meter.{leaves};
ghost use Rattle.run.specs.Run.{Runs};

use crate::questions::refused;
use card::Answer;
pub use resuming::resume;

// The operand stack: slots of which the lowest `depth` hold values.
#[derive(Clone, Copy)]
pub(crate) struct Stack {
    pub bytes: [u8; limits::STACK_BYTES],
    pub depth: usize,
}

#[derive(Clone, Copy)]
pub(crate) struct Locals {
    pub bytes: [u8; limits::LOCAL_BYTES],
    pub count: usize,
}

// The blocks that are open: three numbers for each, the outermost first, and at last how many there are. This is a number of the array so that the
// loop over the instructions need not hold it.
#[derive(Clone, Copy)]
pub(crate) struct Labels {
    pub marks: [usize; MARKS],
}

pub(crate) const OPEN: usize = checker::OPEN;

pub(crate) const MARKS: usize = checker::MARKS;

// The ends of blocks that a branch has looked for.
#[derive(Clone, Copy)]
pub(crate) struct Closings {
    pub words: [u32; ENDS],
}

pub(crate) const ENDS: usize = 64;

// A run that can be resumed: where it spends its budget it leaves an image of where it is.
pub fn run(
    strip: &[u8],
    args: &[u8],
    mem: &mut [u8],
    results: &mut [u8],
    image: &mut [u8],
    budget: u32,
) -> Answer
    ensures { Runs strip.now args.now mem.old results.old (some image.old) budget (leaves result.code result.place result.steps mem.new results.new (some image.new)) }
{
    let asked = questions::ask(strip, args, mem.len(), results.len());
    if asked.code != card::DONE {
        return asked;
    }
    if image.len() < image::BYTES {
        return refused(card::SMALL);
    }
    running::drive(strip, args, mem, results, image, budget)
}

// A run that is lent no image's buffer.
pub fn run_once(
    strip: &[u8],
    args: &[u8],
    mem: &mut [u8],
    results: &mut [u8],
    budget: u32,
) -> Answer
    ensures { Runs strip.now args.now mem.old results.old none budget (leaves result.code result.place result.steps mem.new results.new none) }
{
    let asked = questions::ask(strip, args, mem.len(), results.len());
    if asked.code != card::DONE {
        return asked;
    }
    let mut image = [0u8; 0];
    running::drive(strip, args, mem, results, &mut image, budget)
}
