// A run that is resumed from the image that it left.
ghost use Rattle.std.specs.Prelude.{◌+◌, ◌≤◌, ◌≡◌, length};
ghost use Rattle.std.proofs.Math.Option.{some};
ghost use Rattle.machine.specs.Memory.{part};
ghost use Rattle.run.specs.Meter.{leaves};
ghost use Rattle.run.specs.Resume.{Resumes};
ghost use Rattle.run.specs.Inner.Steps.{Resumable, Resumed};

use crate::questions::refused;
use crate::running::{go_on, pause};
use crate::{Closings, Labels, Locals, Stack};
use card::Answer;

// With the same memory, and the image's buffer for the next one.
pub fn resume(
    strip: &[u8],
    mem: &mut [u8],
    results: &mut [u8],
    image: &mut [u8],
    budget: u32,
) -> Answer
    ensures { Resumes strip.now mem.old results.old image.old budget (leaves result.code result.place result.steps mem.new results.new (some image.new)) }
{
    let place = image::place_in(image);
    let mut kinds = [0u8; limits::STACK];
    let mut labels = Labels {
        marks: [0usize; crate::MARKS],
    };
    let surveyed = match checker::survey(strip, place, &mut kinds, &mut labels.marks) {
        Ok(surveyed) => surveyed,
        Err(e) => return Answer {
            code: e.code,
            place: e.place,
            steps: 0,
        },
    };
    if limits::MEMORY < mem.len() {
        return refused(card::ROOM);
    }
    if results.len() != limits::SLOT * (strip[7] as usize) {
        return refused(card::OUT);
    }
    if image.len() < image::BYTES {
        return refused(card::SMALL);
    }
    let Some(known) = surveyed else {
        return refused(card::IMAGE);
    };
    let count = strip[5] as usize + strip[6] as usize;
    let end = 8 + count;
    let depth = known.depth;
    if !image::shows(image, &strip[8..end], &kinds[..depth]) {
        return refused(card::IMAGE);
    }
    labels.marks[crate::OPEN] = known.nest;
    carry_on(
        strip,
        mem,
        results,
        image,
        budget,
        place,
        depth,
        &mut labels.marks,
        count,
    )
}

// From the image's place, with its locals and its stack, inside these blocks.
fn carry_on(
    strip: &[u8],
    mem: &mut [u8],
    results: &mut [u8],
    image: &mut [u8],
    budget: u32,
    place: usize,
    depth: usize,
    marks: &mut [usize; crate::MARKS],
    count: usize,
) -> Answer
    requires { Resumable strip.now mem.old results.old image.old marks.old place depth count }
    ensures { Resumed strip.now mem.old results.old image.old marks.old place depth count budget result.code result.place result.steps mem.new results.new image.new }
{
    let mut stack = Stack {
        bytes: slots_in(image, image::FRONT + limits::LOCAL_BYTES),
        depth,
    };
    let mut locals = Locals {
        bytes: slots_in(image, image::FRONT),
        count,
    };
    let mut ends = Closings {
        words: [0u32; crate::ENDS],
    };
    let values = stack.depth;
    let held = locals.count;
    let stop = go_on(
        strip,
        mem,
        results,
        budget,
        place,
        &mut stack.bytes,
        values,
        marks,
        &mut ends.words,
        &mut locals.bytes,
    );
    pause(stop, image, held, &stack.bytes, &locals.bytes)
}

// As many bytes of the image, from a place on.
fn slots_in<const N: usize>(image: &[u8], from: usize) -> [u8; N]
    requires { from + N ≤ length image.now }
    ensures { result ≡ part N from image.now }
{
    let end = from + N;
    let mut bytes = [0u8; N];
    bytes.copy_from_slice(&image[from..end]);
    bytes
}
