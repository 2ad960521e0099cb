// The instructions, one after the other, until `end`, a trap or the budget.
ghost use Rattle.std.specs.Prelude.{◌≡◌, ◌+◌, ◌*◌, ◌≤◌, length, take};
ghost use Rattle.card.specs.Card.{BUDGET};
ghost use Rattle.run.specs.Inner.Steps.{Prepared, Drove, Went, pictured};
ghost use Rattle.run.specs.Inner.Carried.{open_in, Carries, Going};
ghost use Rattle.run.specs.Inner.Ends.{Kept};
ghost use Rattle.limits.specs.Limits.{slot, local_count, stack_limit, stack_bytes, local_bytes};
ghost use Rattle.opcode.specs.Number.{row_of};
ghost use Rattle.opcode.specs.Entry.{entry_of};
ghost use Rattle.machine.specs.Memory.{part};
ghost use Rattle.machine.specs.Inner.Fit.{Ready, DidBy};
ghost use Rattle.rules.specs.Strip.{Valid};
ghost use Rattle.standard.specs.Standard.{Config};

use crate::arguments::locals_of;
use crate::{Closings, Labels, Stack, blocks};
use card::Answer;
use instr::Instr;

// From the first instruction, with the arguments as locals and a zeroed stack.
pub(crate) fn drive(
    strip: &[u8],
    args: &[u8],
    mem: &mut [u8],
    results: &mut [u8],
    image: &mut [u8],
    budget: u32,
) -> Answer
    requires { Prepared strip.now args.now mem.old results.old }
    ensures { Drove strip.now args.now mem.old results.old image.old budget result.code result.place result.steps mem.new results.new image.new }
{
    let count = strip[5] as usize + strip[6] as usize;
    let mut stack = Stack {
        bytes: [0u8; limits::STACK_BYTES],
        depth: 0,
    };
    let mut labels = Labels {
        marks: [0usize; crate::MARKS],
    };
    let mut ends = Closings {
        words: [0u32; crate::ENDS],
    };
    let values = stack.depth;
    let mut locals = locals_of(args, count);
    let at = 8 + locals.count + strip[7] as usize;
    let stop = go_on(
        strip,
        mem,
        results,
        budget,
        at,
        &mut stack.bytes,
        values,
        &mut labels.marks,
        &mut ends.words,
        &mut locals.bytes,
    );
    pause(stop, image, count, &stack.bytes, &locals.bytes)
}

// Why it stopped, and how many values are on the stack there.
#[derive(Clone, Copy)]
pub(crate) struct Stop {
    pub code: u8,
    pub place: usize,
    pub steps: u32,
    pub depth: usize,
}

// Where the budget is spent, the image of where that is.
pub(crate) fn pause(
    stop: Stop,
    image: &mut [u8],
    count: usize,
    stack: &[u8],
    locals: &[u8],
) -> Answer
    requires { (count ≤ local_count) × (length locals.now ≡ local_bytes) × (length stack.now ≡ stack_bytes) × (stop.code ≡ BUDGET → stop.depth ≤ stack_limit) }
    ensures { (result.code ≡ stop.code) × (result.place ≡ stop.place) × (result.steps ≡ stop.steps) × (image.new ≡ pictured stop.code stop.place stop.depth (take (slot * count) locals.now) (take (slot * stop.depth) stack.now) image.old) }
{
    if stop.code == card::BUDGET {
        let values = limits::SLOT * stop.depth;
        let held = limits::SLOT * count;
        image::write(
            image,
            stop.place,
            stop.depth,
            &locals[..held],
            &stack[..values],
        );
    }
    Answer {
        code: stop.code,
        place: stop.place,
        steps: stop.steps,
    }
}

// From any place, with the stack, the open blocks and the locals there. The loop stays a `loop`: `at` leaps by each instruction's length or to where a
// branch leads, and is no index over a collection.
pub(crate) fn go_on(
    strip: &[u8],
    mem: &mut [u8],
    results: &mut [u8],
    budget: u32,
    place: usize,
    stack: &mut [u8; limits::STACK_BYTES],
    values: usize,
    marks: &mut [usize; crate::MARKS],
    ends: &mut [u32; crate::ENDS],
    locals: &mut [u8; limits::LOCAL_BYTES],
) -> Stop
    requires { Going strip.now results.old place values (open_in marks.old) stack.old marks.old locals.old mem.old × Kept strip.now ends.old }
    ensures { (v : Valid strip.now) (c : Config) → Carries strip.now v.header c place values (open_in marks.old) stack.old marks.old locals.old mem.old → Went strip.now v.header budget c results.old result.code result.place result.steps result.depth mem.new results.new stack.new marks.new locals.new }
{
    let mut at = place;
    let mut depth = values;
    let mut left = budget;
    loop {
        if left == 0 {
            return Stop {
                code: card::BUDGET,
                place: at,
                steps: budget,
                depth,
            };
        }
        // By the latest version: one that a strip's own version has is the same there, and the check has asked for others.
        let f = instr::fetch(opcode::LATEST, strip, at);
        let d = f.decoded;
        let i = d.instr;
        let group = opcode::group(f.entry);
        if blocks::turns(group) {
            let t = blocks::turn(
                strip, group, i.index, i.block, at, d.len, stack, depth, marks, ends,
            );
            if t.at == 0 {
                put_results(stack, t.depth, results);
                return Stop {
                    code: card::DONE,
                    place: 0,
                    steps: budget - left + 1,
                    depth: 0,
                };
            }
            at = t.at;
            depth = t.depth;
            left -= 1;
        } else {
            match machine::bounds(f.id, f.entry, i, stack, depth, mem.len()) {
                Ok(()) => {
                    depth = machine::exec(f.id, f.entry, i, stack, depth, locals, mem);
                    at += d.len;
                    left -= 1;
                }
                Err(_) => return Stop {
                    code: card::TRAP,
                    place: at,
                    steps: budget - left,
                    depth: 0,
                },
            }
        }
    }
}

// The values from a slot on, the lowest first.
fn put_results(stack: &[u8], from: usize, out: &mut [u8])
    requires { (from ≤ stack_limit) × (slot * from + length out.old ≤ length stack.now) }
    ensures { out.new ≡ part (length out.old) (slot * from) stack.now }
{
    let first = limits::SLOT * from;
    let end = first + out.len();
    buffer::copy(&stack[first..end], out);
}
