// Images that are good and images that are not.
use crate::lent::{IMAGE, Lent, RESULTS};
use crate::picture::Picture;
use cases::{Case, Fields, UNTOUCHED, memory, memory_room};
use hexadecimal::Unminded;
use std::alloc::AllocError;
use std::{fmt, io};
use strip::Answer;

// Strips that are resumed from many images are short: no more of one is lent, whatever a line says.
const SHORT: usize = 2048;

// Bytes of memory, each 0, where a line does not say how many.
const MEMORY: usize = 16;

// resume NAME STRIP MEMORY RESULTS BUDGET IMAGE: the line ends with the image after the call, or with `kept`.
pub(crate) fn resume(case: &Case, mut line: Fields) -> io::Result<()> {
    let alloc = case.rt.alloc();
    let out = Unminded(case.rt);
    let memory = memory(alloc, line.length(&memory_room()))?;
    let results_len = line.length(&[UNTOUCHED; RESULTS]);
    let budget = line.number();
    let image = image_in(case, &mut line)?;
    let mut lent = Lent::of(alloc, &case.strip, memory, results_len, image.clone()?)?;
    let answer = lent.resume(budget);
    out.write_all(case.name)?;
    print!(out; " {budget} {}", lent.left(answer))?;
    if lent.image() == image.as_slice() {
        println!(out; " kept")
    } else {
        println!(out; "{}", Picture(lent.image()))
    }
}

// places NAME STRIP RESULTS DEEPEST IMAGE: the image at every place and with every depth up to the deepest. The line has those that are good.
pub(crate) fn places(case: &Case, mut line: Fields) -> io::Result<()> {
    let out = Unminded(case.rt);
    let results_len = line.length(&[UNTOUCHED; RESULTS]);
    let deepest = line.number() as usize;
    let strip = short(case);
    let mut lent = paused(case, strip, results_len, image_in(case, &mut line)?)?;
    out.write_all(case.name)?;
    for place in 0..=strip.len() {
        lent.put(5, place);
        for depth in 0..=deepest {
            lent.put(9, depth);
            let answer = at_rest(out, &mut lent)?;
            if answer.code != card::IMAGE {
                print!(out; " {}:{depth}{}", answer.place, ButBudget(answer.code))?;
            }
        }
    }
    println!(out; "")
}

// bytes NAME STRIP RESULTS FLIP IMAGE: the image with every byte flipped so. The line has the bytes that may be.
pub(crate) fn bytes(case: &Case, mut line: Fields) -> io::Result<()> {
    let out = Unminded(case.rt);
    let results_len = line.length(&[UNTOUCHED; RESULTS]);
    let flip = line.number();
    let image = image_in(case, &mut line)?;
    let len = image.len();
    let mut lent = paused(case, short(case), results_len, image)?;
    out.write_all(case.name)?;
    print!(out; " {flip}")?;
    for at in 0..len {
        lent.flip(at, (flip % 256) as u8);
        let answer = at_rest(out, &mut lent)?;
        lent.flip(at, (flip % 256) as u8);
        if answer.code != card::IMAGE {
            print!(out; " {at}{}", ButBudget(answer.code))?;
        }
    }
    println!(out; "")
}

fn image_in(case: &Case, line: &mut Fields) -> Result<Vec<u8>, AllocError> {
    let mut room = [0; IMAGE];
    let len = line.bytes(&mut room);
    Vec::from_slice(case.rt.alloc(), &room[..len])
}

fn short<'a>(case: &'a Case) -> &'a [u8] {
    &case.strip[..SHORT.min(case.strip.len())]
}

fn paused<'a>(
    case: &Case,
    strip: &'a [u8],
    results_len: usize,
    image: Vec<u8>,
) -> Result<Lent<'a>, AllocError> {
    let alloc = case.rt.alloc();
    let memory = vec![in alloc; 0; MEMORY]?;
    Lent::of(alloc, strip, memory, results_len, image)
}

// A resume of no steps: whether it is turned away or not, all that is lent stays as it was.
fn at_rest(out: Unminded, lent: &mut Lent) -> io::Result<Answer> {
    let before = lent.clone()?;
    let answer = lent.resume(0);
    if *lent != before {
        print!(out; " touched")?;
    }
    Ok(answer)
}

// The code, unless it is BUDGET, as after a good image.
#[derive(Clone, Copy)]
struct ButBudget(u8);

impl fmt::Display for ButBudget {
    fn fmt<W: fmt::Write>(&self, f: &mut fmt::Formatter<W>) -> fmt::Result {
        if self.0 != card::BUDGET {
            write!(f, "={}", self.0)?;
        }
        Ok(())
    }
}
