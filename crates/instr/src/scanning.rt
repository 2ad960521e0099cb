// Scanning: as decoding, for those who ask only what the table says of the instruction, the one immediate that the rules read, and where
// the next one stands.
ghost use Rattle.std.specs.Prelude.{◌≡◌, ◌≤◌, cond, eqb, length};
ghost use Rattle.opcode.specs.Table.{Row};
ghost use Rattle.opcode.specs.Entry.{entry_of, moved_in};
ghost use Rattle.instr.specs.Layout.{refusal};
ghost use Rattle.instr.specs.Decode.{decode_in};
ghost use Rattle.instr.specs.Scan.{scan_of, summary_of};
ghost use Rattle.instr.specs.Inner.Steps.{item, scan_answer};
ghost use Rattle.instr.specs.Inner.Over.{over_memory, over_row};

use crate::decoding::opcode_at;
use crate::reading::{Got, block_at, exponent_at, lane_at, lanes_at, number_at, sixteen_at};
use crate::{Fetched, Refusal, Scanned};
use leb128::{S32, S64, U32};

pub fn scan(version: u16, s: &[u8], at: usize) -> Scanned
    ensures { result ≡ scan_of (decode_in version s.now at) }
{
    match passed(version, s, at) {
        Ok(instruction) => instruction,
        Err(why) => refused(why),
    }
}

fn passed(version: u16, s: &[u8], at: usize) -> Result<Scanned, Refusal>
    ensures { scan_answer result ≡ scan_of (decode_in version s.now at) }
{
    let code = opcode_at(version, s, at)?;
    let entry = crate::entry_in(version, code.first, code.number);
    let rest = immediates(s, at, code.next, entry)?;
    Ok(Scanned {
        code: card::DONE,
        place: 0,
        len: rest.next - at,
        entry,
        immediate: rest.value as u32,
    })
}

fn refused(why: Refusal) -> Scanned
    ensures { result ≡ scan_of (refusal why.code why.place) }
{
    Scanned {
        code: why.code,
        place: why.place,
        len: 0,
        entry: opcode::entry(0),
        immediate: 0,
    }
}

// What scanning tells of an instruction that was fetched: it is not read again.
pub fn summary(f: Fetched) -> Scanned
    ensures { result ≡ summary_of f }
{
    let d = f.decoded;
    let i = d.instr;
    Scanned {
        code: d.code,
        place: d.place,
        len: d.len,
        entry: f.entry,
        immediate: immediate_of(i.block, i.index),
    }
}

fn immediate_of(block: u8, index: u32) -> u32
    ensures { result ≡ cond (eqb block 0) index block }
{
    if block == 0 { index } else { u32::from(block) }
}

// What follows the opcode of the instruction at `at`, from `p` on: of an immediate that no rule reads only the place after it, with 0.
// One caller, so that it becomes part of it.
fn immediates(s: &[u8], at: usize, p: usize, entry: u64) -> Result<Got, Refusal>
    requires { (p ≤ length s.now) × (moved_in entry ≤ 16) }
    ensures { (row : Row) → entry ≡ entry_of row → item result ≡ over_row row s.now at p }
{
    let class = opcode::immediates(entry);
    match class {
        opcode::CLASS_NOTHING => Ok(Got::over(p)),
        opcode::CLASS_INDEX => number_at::<U32>(s, p),
        opcode::CLASS_WORD => {
            let word = number_at::<S32>(s, p)?;
            Ok(Got::over(word.next))
        }
        opcode::CLASS_LONG => {
            let long = number_at::<S64>(s, p)?;
            Ok(Got::over(long.next))
        }
        opcode::CLASS_MEMORY | opcode::CLASS_MEMORY_LANE => {
            let laned = class == opcode::CLASS_MEMORY_LANE;
            memory(s, p, opcode::moved(entry), opcode::lanes(entry), laned)
        }
        opcode::CLASS_LANE => {
            lane_at(s, p, opcode::lanes(entry))?;
            Ok(Got::over(p + 1))
        }
        opcode::CLASS_BYTES => {
            let next = sixteen_at(s, p)?;
            Ok(Got::over(next))
        }
        opcode::CLASS_LANES => {
            let next = lanes_at(s, p)?;
            Ok(Got::over(next))
        }
        opcode::CLASS_BLOCK_TYPE => {
            let block = block_at(s, p)?;
            Ok(Got {
                value: u64::from(block),
                next: p + 1,
            })
        }
        opcode::CLASS_FLOAT => Err(Refusal::new(card::FLOAT, at)),
        _ => Err(Refusal::new(card::OPCODE, at)),
    }
}

fn memory(s: &[u8], p: usize, moved: u32, lanes: u32, laned: bool) -> Result<Got, Refusal>
    requires { moved ≤ 16 }
    ensures { item result ≡ over_memory laned moved lanes s.now p }
{
    let align = exponent_at(s, p, moved)?;
    let offset = number_at::<U32>(s, align.next)?;
    if laned {
        lane_at(s, offset.next, lanes)?;
        Ok(Got::over(offset.next + 1))
    } else {
        Ok(Got::over(offset.next))
    }
}
