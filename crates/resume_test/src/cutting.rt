// A budget that is cut into slices: a run, and resumes after it with what the call before left.
use crate::digest::Digest;
use crate::lent::{IMAGE, Lent, RESULTS};
use crate::picture::Picture;
use cases::{Case, Fields, UNTOUCHED, memory, memory_room};
use hexadecimal::Unminded;
use std::alloc::AllocError;
use std::io;
use strip::Answer;

// Strips that are cut in every way are short, and so are their arguments and memory: no more of these are lent, whatever a line says. Nor are more
// arguments of any other.
const SHORT: usize = 512;

// cut NAME STRIP ARGUMENTS MEMORY RESULTS IMAGE BUDGET BUDGET ..
pub(crate) fn cut(case: &Case, mut line: Fields) -> io::Result<()> {
    let mut args = [0; SHORT];
    let args_len = line.bytes(&mut args);
    let memory_len = line.length(&memory_room());
    let results_len = line.length(&[UNTOUCHED; RESULTS]);
    let image_len = line.length(&[UNTOUCHED; IMAGE]);
    let mut lent = begun(case, &case.strip, memory_len, results_len, image_len)?;
    let first = line.number();
    let answer = lent.run(&args[..args_len], first);
    print(case, first, answer, &lent)?;
    for field in line.rest().split_inclusive(|byte| *byte == b' ') {
        let budget = Fields::of(field).number();
        let answer = lent.resume(budget);
        print(case, budget, answer, &lent)?;
    }
    Ok(())
}

fn begun<'a>(
    case: &Case,
    strip: &'a [u8],
    memory_len: usize,
    results_len: usize,
    image_len: usize,
) -> Result<Lent<'a>, AllocError> {
    let alloc = case.rt.alloc();
    let memory = memory(alloc, memory_len)?;
    let image = vec![in alloc; UNTOUCHED; image_len]?;
    Lent::of(alloc, strip, memory, results_len, image)
}

fn print(case: &Case, budget: u32, answer: Answer, lent: &Lent) -> io::Result<()> {
    let out = Unminded(case.rt);
    let picture = Picture(lent.image());
    out.write_all(case.name)?;
    println!(out; " {budget} {}{picture}", lent.left(answer))
}

// slices NAME STRIP ARGUMENTS MEMORY RESULTS LAST: each way to cut the last budget in three. A line for each first slice: what it leaves, and at
// its end one number for all that the second and the third leave. They are called also where the one before was not out of budget.
pub(crate) fn slices(case: &Case, mut line: Fields) -> io::Result<()> {
    let out = Unminded(case.rt);
    let mut args = [0; SHORT];
    let args_len = line.bytes(&mut args);
    let memory_len = line.length(&[0; SHORT]);
    let results_len = line.length(&[UNTOUCHED; RESULTS]);
    let strip = &case.strip[..SHORT.min(case.strip.len())];
    let before = begun(case, strip, memory_len, results_len, image::BYTES)?;
    let last = line.number();
    for first in 0..=last {
        let mut lent = before.clone()?;
        let answer = lent.run(&args[..args_len], first);
        let picture = Picture(lent.image());
        out.write_all(case.name)?;
        print!(out; " {first} {}{picture}", lent.left(answer))?;
        println!(out; " {}", seconds(&lent, last - first)?)?;
    }
    Ok(())
}

// Of all that the second and the third slice leave, in each way to cut the rest in two.
fn seconds(after_first: &Lent, rest: u32) -> Result<Digest, AllocError> {
    let mut digest = Digest::EMPTY;
    for second in 0..=rest {
        let mut lent = after_first.clone()?;
        for budget in [second, rest - second] {
            let answer = lent.resume(budget);
            digest = lent.digest(digest, answer);
        }
    }
    Ok(digest)
}
