// The items of an instruction, each read at a place of the file and judged as soon as it is read.
ghost use Rattle.std.specs.Prelude.{◌≡◌, ◌+◌, ◌^◌, ◌<◌, ◌≤◌, IfOk, OnOk, length};
ghost use Rattle.instr.specs.Decode.{number_item, byte_at, lane_at, block_at, exponent_at, lanes_at, sixteen_at};
ghost use Rattle.instr.specs.Inner.Steps.{item, next_item, one_item, GoodUpTo};

use crate::Refusal;
use leb128::{Format, NoNumber, U32};

// A number as its bits, and the place after it.
#[derive(Clone, Copy, Debug, PartialEq, Eq)]
pub(crate) struct Got {
    pub value: u64,
    pub next: usize,
}

impl Got {
    // Of an item of which only the place after it is asked, the value is 0.
    pub(crate) fn over(next: usize) -> Got
        ensures { result ≡ record { value = 0; next = next } }
    {
        Got { value: 0, next }
    }
}

pub(crate) fn number_at<F: Format>(s: &[u8], p: usize) -> Result<Got, Refusal>
    ensures is { item result ≡ number_item F.SIGNED F.width s.now p }
    ensures within { IfOk result (λ g. (g.value < 2 ^ F.width) × (p < g.next) × (g.next ≤ length s.now)) }
{
    match leb128::read::<F>(s, p) {
        Ok(number) => Ok(Got {
            value: number.value,
            next: p + number.len,
        }),
        Err(NoNumber::Short) => Err(Refusal::short(s)),
        Err(NoNumber::Wrong) => Err(Refusal::new(card::NUMBER, p)),
    }
}

pub(crate) fn byte_at(s: &[u8], p: usize) -> Result<u8, Refusal>
    ensures is { one_item p result ≡ byte_at s.now p }
    ensures within { OnOk result (p < length s.now) }
{
    match s.get(p) {
        Some(byte) => Ok(*byte),
        None => Err(Refusal::short(s)),
    }
}

// An index below `lanes`.
pub(crate) fn lane_at(s: &[u8], p: usize, lanes: u32) -> Result<u8, Refusal>
    ensures is { one_item p result ≡ lane_at lanes s.now p }
    ensures within { OnOk result (p < length s.now) }
{
    let lane = byte_at(s, p)?;
    if u32::from(lane) < lanes {
        Ok(lane)
    } else {
        Err(Refusal::new(card::LANE, p))
    }
}

pub(crate) fn block_at(s: &[u8], p: usize) -> Result<u8, Refusal>
    ensures is { one_item p result ≡ block_at s.now p }
    ensures within { OnOk result (p < length s.now) }
{
    let block = byte_at(s, p)?;
    if crate::is_block_type(block) {
        Ok(block)
    } else {
        Err(Refusal::new(card::KIND, p))
    }
}

// An exponent for the bytes moved.
pub(crate) fn exponent_at(s: &[u8], p: usize, moved: u32) -> Result<Got, Refusal>
    requires { moved ≤ 16 }
    ensures is { item result ≡ exponent_at moved s.now p }
    ensures within { IfOk result (λ g. (g.value < 2 ^ 32) × (p < g.next) × (g.next ≤ length s.now)) }
{
    let exponent = number_at::<U32>(s, p)?;
    if crate::exponent_fits(exponent.value as u32, moved) {
        Ok(exponent)
    } else {
        Err(Refusal::new(card::ALIGN, p))
    }
}

// The place after sixteen bytes.
pub(crate) fn sixteen_at(s: &[u8], p: usize) -> Result<usize, Refusal>
    requires { p ≤ length s.now }
    ensures is { next_item result ≡ sixteen_at s.now p }
    ensures within { IfOk result (λ next. (next ≡ p + 16) × (next ≤ length s.now)) }
{
    if s.len() - p < 16 {
        Err(Refusal::short(s))
    } else {
        Ok(p + 16)
    }
}

// The place after sixteen shuffle indices.
pub(crate) fn lanes_at(s: &[u8], p: usize) -> Result<usize, Refusal>
    requires { p ≤ length s.now }
    ensures is { next_item result ≡ lanes_at 16 s.now p }
    ensures within { IfOk result (λ next. (next ≡ p + 16) × (next ≤ length s.now)) }
{
    let k = good_lanes(s, p);
    if 16 <= k {
        Ok(p + k)
    } else if p + k < s.len() {
        Err(Refusal::new(card::LANE, p + k))
    } else {
        Err(Refusal::short(s))
    }
}

// How many of sixteen shuffle indices are below 32, up to the first that is not. The scan leaves by `break`, as the project has it.
fn good_lanes(s: &[u8], p: usize) -> usize
    requires { p ≤ length s.now }
    ensures { GoodUpTo s.now p result }
{
    let mut k: usize = 0;
    loop {
        if 16 <= k {
            break k;
        }
        if s.len() - p <= k {
            break k;
        }
        if 32 <= s[p + k] {
            break k;
        }
        k += 1;
    }
}
