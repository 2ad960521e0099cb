// Decoding: from left to right, each item judged as soon as it is read.
ghost use Rattle.std.specs.Prelude.{◌≡◌, ◌^◌, ◌<◌, ◌≤◌, IfOk, MatchResult, length};
ghost use Rattle.opcode.specs.Table.{Row};
ghost use Rattle.opcode.specs.Entry.{entry_of, moved_in};
ghost use Rattle.instr.specs.Layout.{head, refusal};
ghost use Rattle.instr.specs.Decode.{body_of, decode_in, item_of, opcode_number};
ghost use Rattle.instr.specs.Fetch.{fetch_of};
ghost use Rattle.instr.specs.Inner.Steps.{OpcodeAt, bare_of, fetch_answer, item, told};

use crate::immediates::{
    Whole, with_block, with_bytes, with_index, with_lane, with_lanes, with_long, with_memory,
    with_word,
};
use crate::reading::{Got, byte_at, number_at};
use crate::{Decoded, Fetched, Instr, Refusal};
use leb128::U32;

pub fn decode(version: u16, s: &[u8], at: usize) -> Decoded
    ensures { result ≡ decode_in version s.now at }
{
    fetch(version, s, at).decoded
}

pub fn fetch(version: u16, s: &[u8], at: usize) -> Fetched
    ensures { result ≡ fetch_of (decode_in version s.now at) }
{
    match found(version, s, at) {
        Ok(instruction) => instruction,
        Err(why) => not_found(why),
    }
}

fn found(version: u16, s: &[u8], at: usize) -> Result<Fetched, Refusal>
    ensures { fetch_answer result ≡ fetch_of (decode_in version s.now at) }
{
    let code = opcode_at(version, s, at)?;
    let id = crate::id_in(version, code.first, code.number);
    let entry = opcode::entry(id);
    let whole = body(s, at, code, entry)?;
    Ok(Fetched {
        id,
        entry,
        decoded: Decoded {
            code: card::DONE,
            place: 0,
            len: whole.next - at,
            instr: whole.instr,
        },
    })
}

// A refusal names no instruction: its opcode's numbers are zero, and so is the id.
fn not_found(why: Refusal) -> Fetched
    ensures { result ≡ fetch_of (refusal why.code why.place) }
{
    Fetched {
        id: 0,
        entry: opcode::entry(0),
        decoded: Decoded {
            code: why.code,
            place: why.place,
            len: 0,
            instr: bare(0, 0),
        },
    }
}

// An instruction that has its opcode, and so far no immediates.
fn bare(first: u8, number: u32) -> Instr
    ensures { result ≡ bare_of (head first number) }
{
    Instr {
        first,
        number,
        index: 0,
        word: 0,
        long: 0,
        align: 0,
        offset: 0,
        lane: 0,
        block: 0,
        bytes: [0; 16],
    }
}

// The two numbers of an opcode, and the place after it.
#[derive(Clone, Copy)]
pub(crate) struct Opcode {
    pub first: u8,
    pub number: u32,
    pub next: usize,
}

pub(crate) fn opcode_at(version: u16, s: &[u8], at: usize) -> Result<Opcode, Refusal>
    ensures { MatchResult result (λ code. OpcodeAt version s.now at code) (λ why. decode_in version s.now at ≡ refusal why.code why.place) }
{
    if !opcode::is_known(version) {
        return Err(Refusal::new(card::VERSION, 3));
    }
    let first = byte_at(s, at)?;
    let number = opcode_number(s, at + 1, first)?;
    Ok(Opcode {
        first,
        number: number.value as u32,
        next: number.next,
    })
}

// The number after FD; after another byte there is none, and it is 0.
fn opcode_number(s: &[u8], p: usize, first: u8) -> Result<Got, Refusal>
    requires { p ≤ length s.now }
    ensures is { item result ≡ item_of s.now p (opcode_number first s.now p) }
    ensures within { IfOk result (λ g. (g.value < 2 ^ 32) × (p ≤ g.next) × (g.next ≤ length s.now)) }
{
    if first == opcode::PREFIX {
        number_at::<U32>(s, p)
    } else {
        Ok(Got { value: 0, next: p })
    }
}

// What follows the opcode. One caller, so that it becomes part of it; CLASS_MEMORY and CLASS_MEMORY_LANE share an arm for the same reason.
fn body(s: &[u8], at: usize, code: Opcode, entry: u64) -> Result<Whole, Refusal>
    requires { (code.next ≤ length s.now) × (moved_in entry ≤ 16) }
    ensures is { (row : Row) → entry ≡ entry_of row → told at result ≡ body_of row s.now at code.next (head code.first code.number) }
    ensures onward { IfOk result (λ w. code.next ≤ w.next) }
{
    let p = code.next;
    let bare = bare(code.first, code.number);
    let class = opcode::immediates(entry);
    match class {
        opcode::CLASS_NOTHING => Ok(Whole {
            instr: bare,
            next: p,
        }),
        opcode::CLASS_INDEX => with_index(s, p, bare),
        opcode::CLASS_WORD => with_word(s, p, bare),
        opcode::CLASS_LONG => with_long(s, p, bare),
        opcode::CLASS_MEMORY | opcode::CLASS_MEMORY_LANE => {
            let laned = class == opcode::CLASS_MEMORY_LANE;
            with_memory(
                s,
                p,
                bare,
                opcode::moved(entry),
                opcode::lanes(entry),
                laned,
            )
        }
        opcode::CLASS_LANE => with_lane(s, p, bare, opcode::lanes(entry)),
        opcode::CLASS_BYTES => with_bytes(s, p, bare),
        opcode::CLASS_LANES => with_lanes(s, p, bare),
        opcode::CLASS_BLOCK_TYPE => with_block(s, p, bare),
        opcode::CLASS_FLOAT => Err(Refusal::new(card::FLOAT, at)),
        _ => Err(Refusal::new(card::OPCODE, at)),
    }
}
