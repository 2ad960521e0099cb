// The kinds on the stack, lent as bytes beside a depth; from a floor on they are those of the innermost block.
ghost use Rattle.std.specs.Prelude.{◌≤◌, ◌≡◌, List, map, reverse, length, IfSome, IfOk};
ghost use Rattle.std.proofs.Math.Option.{some};
ghost use Rattle.limits.specs.Limits.{stack_limit};
ghost use Rattle.operation.specs.Vector.{number};
ghost use Rattle.opcode.specs.Kind.{Kind, kind_byte};
ghost use Rattle.opcode.specs.Effect.{◌⇒◌};
ghost use Rattle.opcode.specs.Number.{packed};
ghost use Rattle.rules.specs.Typing.{Frame};
ghost use Rattle.checker.specs.Walk.{KindBytes};
ghost use Rattle.checker.specs.Inner.Stack.{Keeps, Top, Under, Small, Leaves, Applies};

// How many values lie under the operands, whose kinds are the bytes of a number, the top one first, if these are there. In dead code any are there
// under the floor. The loop stays a `while`: a number's bytes are no collection.
pub(crate) fn under(
    operands: u64,
    kinds: &[u8],
    depth: usize,
    floor: usize,
    dead: bool,
) -> Option<usize>
    requires { (floor ≤ depth) × (depth ≤ length kinds.now) }
    ensures most { IfSome result (λ base. base ≤ depth) }
    ensures under { (outer ins : List Kind) (f : Frame) → Top kinds.now depth floor dead outer f → number (map kind_byte (reverse ins)) ≡ operands → Under f ins floor result }
{
    let mut left = operands;
    let mut base = depth;
    while left != 0 {
        if base == floor {
            if dead {
                return Some(floor);
            }
            return None;
        }
        if kinds[base - 1] != (left % 256) as u8 {
            return None;
        }
        left /= 256;
        base -= 1;
    }
    Some(base)
}

// Kinds whose bytes are a number, the lowest first, are left from a base on: how many values the stack holds then, or the line of the card that
// turns them away. The loop stays a `while`: a number's bytes are no collection.
pub(crate) fn leave(results: u64, kinds: &mut [u8], base: usize) -> Result<usize, u8>
    requires { (base ≤ stack_limit) × (length kinds.old ≡ stack_limit) }
    ensures leaves { (below outs : List Kind) → KindBytes kinds.old base below → number (map kind_byte outs) ≡ results → Leaves below outs kinds.new result }
    ensures keeps { IfOk result (λ depth. Keeps depth kinds.old kinds.new) }
{
    let mut left = results;
    let mut depth = base;
    while left != 0 {
        if depth == limits::STACK {
            return Err(card::DEEP);
        }
        kinds[depth] = (left % 256) as u8;
        left /= 256;
        depth += 1;
    }
    Ok(depth)
}

// The operands are taken and the result is left, as an entry of the table has them in a number.
pub(crate) fn apply(
    effect: u32,
    kinds: &mut [u8],
    depth: usize,
    floor: usize,
    dead: bool,
) -> Result<usize, u8>
    requires { (floor ≤ depth) × (depth ≤ stack_limit) × (length kinds.old ≡ stack_limit) }
    ensures applies { (outer ins outs : List Kind) (f : Frame) → Top kinds.old depth floor dead outer f → Small ins outs → packed (some (ins ⇒ outs)) ≡ effect → Applies outer f ins outs kinds.new result }
    ensures keeps { IfOk result (λ depth. Keeps depth kinds.old kinds.new) }
{
    let taken = u64::from(effect % 0x100_0000);
    let Some(base) = under(taken, kinds, depth, floor, dead) else {
        return Err(card::OPERAND);
    };
    let result = (effect / 0x100_0000) as u8;
    if result == 0 {
        return Ok(base);
    }
    if base == limits::STACK {
        return Err(card::DEEP);
    }
    kinds[base] = result;
    Ok(base + 1)
}

// The same of any kinds, those taken the top one first in a number and those left the lowest first.
pub(crate) fn exchange(
    operands: u64,
    results: u64,
    kinds: &mut [u8],
    depth: usize,
    floor: usize,
    dead: bool,
) -> Result<usize, u8>
    requires { (floor ≤ depth) × (depth ≤ stack_limit) × (length kinds.old ≡ stack_limit) }
    ensures applies { (outer ins outs : List Kind) (f : Frame) → Top kinds.old depth floor dead outer f → number (map kind_byte (reverse ins)) ≡ operands → number (map kind_byte outs) ≡ results → Applies outer f ins outs kinds.new result }
    ensures keeps { IfOk result (λ depth. Keeps depth kinds.old kinds.new) }
{
    let Some(base) = under(operands, kinds, depth, floor, dead) else {
        return Err(card::OPERAND);
    };
    leave(results, kinds, base)
}
