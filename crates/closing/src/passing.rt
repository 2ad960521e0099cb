// Over one instruction, by its opcode and the class of what follows it.
ghost use Rattle.std.specs.Prelude.{◌≡◌, ◌≤◌, ◌<◌, EachIndex, MatchOption, length, slice_index};
ghost use Rattle.opcode.specs.Table.{Row};
ghost use Rattle.opcode.specs.Number.{group_of};
ghost use Rattle.opcode.specs.Entry.{entry_of};
ghost use Rattle.closing.specs.Search.{past_number, past_bytes, past_row, passed_at, Ends, Named};

use leb128::U32;

// The group of an instruction, and the place after it.
#[derive(Clone, Copy)]
pub(crate) struct Passed {
    pub group: u8,
    pub next: usize,
}

pub(crate) fn pass(s: &[u8], at: usize) -> Passed
    requires { at < length s.now }
    ensures { (result.group ≡ group_of (passed_at s.now at).row) × (result.next ≡ (passed_at s.now at).next) }
{
    let o = opcode_at(s, at);
    let entry = opcode::entry(o.id);
    Passed {
        group: opcode::group(entry),
        next: past_immediates(s, o.next, entry),
    }
}

// An opcode's id, and the place after it.
#[derive(Clone, Copy)]
pub(crate) struct Opcode {
    pub id: u32,
    pub next: usize,
}

fn opcode_at(s: &[u8], at: usize) -> Opcode
    requires { at < length s.now }
    ensures { Named s.now at result.id result.next }
{
    let first = s[at];
    if first != opcode::PREFIX {
        return Opcode {
            id: opcode::id_of(first, 0),
            next: at + 1,
        };
    }
    match leb128::read::<U32>(s, at + 1) {
        Ok(number) => Opcode {
            id: opcode::id_of(first, number.value as u32),
            next: at + 1 + number.len,
        },
        Err(_) => Opcode {
            id: opcode::BEYOND,
            next: at + 1,
        },
    }
}

fn past_immediates(s: &[u8], p: usize, entry: u64) -> usize
    requires { p ≤ length s.now }
    ensures { (row : Row) → entry ≡ entry_of row → result ≡ past_row row s.now p }
{
    match opcode::immediates(entry) {
        opcode::CLASS_NOTHING => p,
        opcode::CLASS_INDEX => past_number(s, p),
        opcode::CLASS_WORD => past_number(s, p),
        opcode::CLASS_LONG => past_number(s, p),
        opcode::CLASS_MEMORY => past_number(s, past_number(s, p)),
        opcode::CLASS_MEMORY_LANE => past_bytes(s, past_number(s, past_number(s, p)), 1),
        opcode::CLASS_LANE => past_bytes(s, p, 1),
        opcode::CLASS_BYTES => past_bytes(s, p, 16),
        opcode::CLASS_LANES => past_bytes(s, p, 16),
        opcode::CLASS_BLOCK_TYPE => past_bytes(s, p, 1),
        _ => s.len(),
    }
}

fn past_bytes(s: &[u8], p: usize, n: usize) -> usize
    requires { p ≤ length s.now }
    ensures { (result ≡ past_bytes s.now p n) × (result ≤ length s.now) }
{
    if s.len() - p < n { s.len() } else { p + n }
}

// A number ends at the first byte below 128.
fn past_number(s: &[u8], p: usize) -> usize
    requires { p ≤ length s.now }
    ensures { (result ≡ past_number s.now p) × (result ≤ length s.now) }
{
    match last_of(&s[p..]) {
        Some(last) => p + last + 1,
        None => s.len(),
    }
}

fn last_of(bytes: &[u8]) -> Option<usize>
    ensures { MatchOption result (EachIndex bytes.now (λ k. 128 ≤ slice_index bytes.now k)) (λ last. Ends bytes.now last) }
{
    bytes.iter().position(|byte| *byte < 128)
}
