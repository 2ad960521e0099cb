// One instruction that was read, over the kinds of the locals and of the stack.
ghost use Rattle.std.specs.Prelude.{◌+◌, ◌≤◌, ◌≡◌, List, length, drop, IfOk};
ghost use Rattle.limits.specs.Limits.{stack_limit};
ghost use Rattle.opcode.specs.Kind.{Kind};
ghost use Rattle.opcode.specs.Table.{Code, carried};
ghost use Rattle.opcode.specs.Entry.{entry_of};
ghost use Rattle.rules.specs.Typing.{Frame};
ghost use Rattle.checker.specs.Walk.{KindBytes};
ghost use Rattle.checker.specs.Inner.Stack.{Keeps, Top};
ghost use Rattle.checker.specs.Inner.Judging.{Effected, Ordinary, Gives};

use crate::stack;
use opcode::kind;

// What the instruction takes and leaves, in a number as an entry of the table has it: by its signature, or by the kind of the value or of the
// local. 0 where the local is not declared.
fn effect_of(
    strip: &[u8],
    locals: usize,
    entry: u64,
    index: u32,
    kinds: &[u8],
    depth: usize,
    floor: usize,
) -> u32
    requires { (8 + locals ≤ length strip.now) × (floor ≤ depth) × (depth ≤ length kinds.now) }
    ensures { (c : Code) (ls outer : List Kind) (f : Frame) → entry ≡ entry_of (carried c) → Ordinary c → KindBytes (drop 8 strip.now) locals ls → Top kinds.now depth floor f.dead outer f → Effected ls index c f result }
{
    let effect = opcode::effect(entry);
    if effect != 0 {
        return effect;
    }
    let group = opcode::group(entry);
    if group == opcode::GROUP_DROP {
        // of no value any kind: it is not there, or it is any
        if depth == floor {
            return kind::I32 as u32;
        }
        return kinds[depth - 1] as u32;
    }
    let n = index as usize;
    if locals <= n {
        return 0;
    }
    let k = strip[8 + n] as u32;
    match group {
        opcode::GROUP_LOCAL_GET => 0x100_0000 * k,
        opcode::GROUP_LOCAL_SET => k,
        _ => 0x100_0000 * k + k,
    }
}

pub(crate) fn judge(
    strip: &[u8],
    locals: usize,
    entry: u64,
    index: u32,
    kinds: &mut [u8],
    depth: usize,
    floor: usize,
    dead: bool,
) -> Result<usize, u8>
    requires { (8 + locals ≤ length strip.now) × (floor ≤ depth) × (depth ≤ stack_limit) × (length kinds.old ≡ stack_limit) }
    ensures gives { (c : Code) (ls outer : List Kind) (f : Frame) → entry ≡ entry_of (carried c) → Ordinary c → KindBytes (drop 8 strip.now) locals ls → Top kinds.old depth floor dead outer f → Gives ls index c outer f kinds.new result }
    ensures keeps { IfOk result (λ depth. Keeps depth kinds.old kinds.new) }
{
    let effect = effect_of(strip, locals, entry, index, kinds, depth, floor);
    if effect == 0 {
        return Err(card::LOCAL);
    }
    stack::apply(effect, kinds, depth, floor, dead)
}
