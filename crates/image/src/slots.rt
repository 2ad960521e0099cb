// Values in slots: sixteen bytes for each, of which those that its kind does not use are zero.
ghost use Rattle.std.specs.Prelude.{◌≡◌, List, map, ◌≤◌, length};
ghost use Rattle.opcode.specs.Kind.{Kind, kind_byte};
ghost use Rattle.machine.specs.Value.{Value};
ghost use Rattle.image.specs.Slots.{InSlots, Tells};
ghost use Rattle.image.specs.Inner.Parts.{Zeros, used_by};

// Whether the bytes are values of these kinds, a byte each.
pub fn formed(kinds: &[u8], bytes: &[u8]) -> bool
    ensures { (ks : List Kind) → kinds.now ≡ map kind_byte ks → Tells ((vs : List Value) × InSlots ks bytes.now vs) result }
{
    if bytes.len() / limits::SLOT != kinds.len() || bytes.len() % limits::SLOT != 0 {
        return false;
    }
    for (j, kind) in kinds.iter().enumerate() {
        let first = limits::SLOT * j;
        let unused = first + used(*kind);
        let next = first + limits::SLOT;
        if !all_zero(&bytes[unused..next]) {
            return false;
        }
    }
    true
}

fn used(kind: u8) -> usize
    ensures { result ≡ used_by kind }
{
    match kind {
        opcode::kind::I32 => 4,
        opcode::kind::I64 => 8,
        _ => 16,
    }
}

// All bytes are looked at, whatever the first are: without a way out of the loop the compiler takes many at a time.
pub(crate) fn all_zero(bytes: &[u8]) -> bool
    ensures { Tells (Zeros 0 (length bytes.now) bytes.now) result }
{
    let mut clear = true;
    for b in bytes {
        if *b != 0 {
            clear = false;
        }
    }
    clear
}
