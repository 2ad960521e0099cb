// One line: place, kinds, mnemonic and immediates.
ghost use Rattle.std.specs.Prelude.{◌≤◌, List, [], ◌∷◌, ◌++◌, length};
ghost use Rattle.text.specs.Decimal.{decimal};
ghost use Rattle.text.specs.Words.{blank};
ghost use Rattle.opcode.specs.Kind.{Kind};
ghost use Rattle.opcode.specs.Number.{name_of};
ghost use Rattle.checker.specs.Walk.{KindBytes};
ghost use Rattle.listing.specs.Line.{line as Line·line};
ghost use Rattle.listing.specs.Walk.{longest};
ghost use Rattle.listing.specs.Inner.Parts.{Adds, Shows};

use crate::immediates::immediates;
use crate::stack::stack;
use instr::Instr;

pub(crate) fn line(
    at: usize,
    kinds: &[u8],
    depth: usize,
    id: u32,
    entry: u64,
    i: Instr,
    out: &mut [u8],
) -> usize
    requires { Shows kinds.now depth id entry i (length out.old) }
    ensures { (κs : List Kind) → KindBytes kinds.now depth κs → Adds longest (Line·line at κs i) out.old 0 result out.new }
{
    let after_place = place(at, out);
    let after_stack = stack(kinds, depth, out, after_place);
    let before_name = text::push(b' ', out, after_stack);
    let after_name = name(id, out, before_name);
    let after_all = immediates(opcode::immediates(entry), i, out, after_name);
    text::push(b'\n', out, after_all)
}

// The place and the blank after it.
fn place(at: usize, out: &mut [u8]) -> usize
    requires { 21 ≤ length out.old }
    ensures { Adds 21 (decimal at ++ blank ∷ []) out.old 0 result out.new }
{
    let to = text::decimal(at as u64, out, 0);
    text::push(b' ', out, to)
}

fn name(id: u32, out: &mut [u8], at: usize) -> usize
    ensures { Adds 32 (name_of id) out.old at result out.new }
{
    text::put(mnemonic::name(id).as_bytes(), out, at)
}
