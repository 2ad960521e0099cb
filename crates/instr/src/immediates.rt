// Decoding what follows the opcode: one function for each class of immediates. Each adds what it reads at `p` to the instruction that
// so far has its opcode alone.
ghost use Rattle.std.specs.Prelude.{◌≡◌, ◌+◌, ◌≤◌, ℕ, IfOk, length, take, drop};
ghost use Rattle.opcode.specs.Immediate as Class;
ghost use Rattle.instr.specs.Layout.{Head};
ghost use Rattle.instr.specs.Decode.{immediates_at};
ghost use Rattle.instr.specs.Inner.Steps.{bare_of, memory_class, lane_ends, told};

use crate::reading::{block_at, exponent_at, lane_at, lanes_at, number_at, sixteen_at};
use crate::{Instr, Refusal};
use leb128::{S32, S64, U32};

// A whole instruction, and the place after it.
#[derive(Clone, Copy)]
pub(crate) struct Whole {
    pub instr: Instr,
    pub next: usize,
}

pub(crate) fn with_index(s: &[u8], p: usize, bare: Instr) -> Result<Whole, Refusal>
    ensures is { (h : Head) (at : ℕ) → bare ≡ bare_of h → told at result ≡ immediates_at Class.index 0 0 s.now at p h }
    ensures onward { IfOk result (λ w. p ≤ w.next) }
{
    let index = number_at::<U32>(s, p)?;
    Ok(Whole {
        instr: Instr {
            index: index.value as u32,
            ..bare
        },
        next: index.next,
    })
}

pub(crate) fn with_word(s: &[u8], p: usize, bare: Instr) -> Result<Whole, Refusal>
    ensures is { (h : Head) (at : ℕ) → bare ≡ bare_of h → told at result ≡ immediates_at Class.word 0 0 s.now at p h }
    ensures onward { IfOk result (λ w. p ≤ w.next) }
{
    let word = number_at::<S32>(s, p)?;
    Ok(Whole {
        instr: Instr {
            word: word.value as u32,
            ..bare
        },
        next: word.next,
    })
}

pub(crate) fn with_long(s: &[u8], p: usize, bare: Instr) -> Result<Whole, Refusal>
    ensures is { (h : Head) (at : ℕ) → bare ≡ bare_of h → told at result ≡ immediates_at Class.long 0 0 s.now at p h }
    ensures onward { IfOk result (λ w. p ≤ w.next) }
{
    let long = number_at::<S64>(s, p)?;
    Ok(Whole {
        instr: Instr {
            long: long.value,
            ..bare
        },
        next: long.next,
    })
}

pub(crate) fn with_memory(
    s: &[u8],
    p: usize,
    bare: Instr,
    moved: u32,
    lanes: u32,
    laned: bool,
) -> Result<Whole, Refusal>
    requires { moved ≤ 16 }
    ensures is { (h : Head) (at : ℕ) → bare ≡ bare_of h → told at result ≡ immediates_at (memory_class laned) moved lanes s.now at p h }
    ensures onward { IfOk result (λ w. p ≤ w.next) }
{
    let align = exponent_at(s, p, moved)?;
    let offset = number_at::<U32>(s, align.next)?;
    let instr = Instr {
        align: align.value as u32,
        offset: offset.value as u32,
        ..bare
    };
    if laned {
        with_lane(s, offset.next, instr, lanes)
    } else {
        Ok(Whole {
            instr,
            next: offset.next,
        })
    }
}

// A lane index ends the instruction, alone or after a memory immediate.
pub(crate) fn with_lane(s: &[u8], p: usize, instr: Instr, lanes: u32) -> Result<Whole, Refusal>
    ensures is { (at : ℕ) → told at result ≡ lane_ends lanes s.now p at instr }
    ensures onward { IfOk result (λ w. p ≤ w.next) }
{
    let lane = lane_at(s, p, lanes)?;
    Ok(Whole {
        instr: Instr { lane, ..instr },
        next: p + 1,
    })
}

// A block type is one byte.
pub(crate) fn with_block(s: &[u8], p: usize, bare: Instr) -> Result<Whole, Refusal>
    ensures is { (h : Head) (at : ℕ) → bare ≡ bare_of h → told at result ≡ immediates_at Class.block_type 0 0 s.now at p h }
    ensures onward { IfOk result (λ w. p ≤ w.next) }
{
    let block = block_at(s, p)?;
    Ok(Whole {
        instr: Instr { block, ..bare },
        next: p + 1,
    })
}

pub(crate) fn with_bytes(s: &[u8], p: usize, bare: Instr) -> Result<Whole, Refusal>
    requires { p ≤ length s.now }
    ensures is { (h : Head) (at : ℕ) → bare ≡ bare_of h → told at result ≡ immediates_at Class.sixteen_bytes 0 0 s.now at p h }
    ensures onward { IfOk result (λ w. p ≤ w.next) }
{
    let next = sixteen_at(s, p)?;
    Ok(Whole {
        instr: Instr {
            bytes: sixteen(s, p),
            ..bare
        },
        next,
    })
}

pub(crate) fn with_lanes(s: &[u8], p: usize, bare: Instr) -> Result<Whole, Refusal>
    requires { p ≤ length s.now }
    ensures is { (h : Head) (at : ℕ) → bare ≡ bare_of h → told at result ≡ immediates_at Class.sixteen_lanes 0 0 s.now at p h }
    ensures onward { IfOk result (λ w. p ≤ w.next) }
{
    let next = lanes_at(s, p)?;
    Ok(Whole {
        instr: Instr {
            bytes: sixteen(s, p),
            ..bare
        },
        next,
    })
}

fn sixteen(s: &[u8], p: usize) -> [u8; 16]
    requires { p + 16 ≤ length s.now }
    ensures { result ≡ take 16 (drop p s.now) }
{
    let mut a = [0u8; 16];
    let end = p + 16;
    buffer::copy(&s[p..end], &mut a);
    a
}
