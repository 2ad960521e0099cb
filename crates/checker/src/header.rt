// The header: every byte before the first instruction, each asked in the order of the file.
ghost use Rattle.std.specs.Prelude.{◌+◌, ◌≤◌, ◌≡◌, length, MatchResult};
ghost use Rattle.limits.specs.Limits.{local_count, result_limit};
ghost use Rattle.checker.specs.Inner.Kinds.{is_kind};
ghost use Rattle.rules.specs.Header.{Header, Declares};
ghost use Rattle.rules.specs.Breach.{Breach};
ghost use Rattle.checker.specs.Inner.Parts.{KindsSay};
ghost use Rattle.checker.specs.Inner.Going.{Begins};

use crate::{Refusal, numbers, refuse};
use opcode::kind;

// What the header tells of the instructions: the version, how many locals there are, the kinds that the strip's own `end` takes, the top one first
// in a number, and where the first one stands.
#[derive(Clone, Copy)]
pub(crate) struct Head {
    pub version: u16,
    pub locals: usize,
    pub takes: u64,
    pub start: usize,
}

pub(crate) fn read(strip: &[u8]) -> Result<Head, Refusal>
    ensures { MatchResult result (λ h. Begins strip.now h.version h.locals h.takes h.start) (λ e. Breach strip.now e.code e.place) }
{
    header(strip)?;
    let locals = strip[5] as usize + strip[6] as usize;
    let results = strip[7] as usize;
    let takes = numbers::top_first(strip, 8 + locals, results);
    Ok(Head {
        version: strip[3] as u16,
        locals,
        takes,
        start: 8 + locals + results,
    })
}

fn header(strip: &[u8]) -> Result<(), Refusal>
    ensures { MatchResult result (λ _. (h : Header) × Declares strip.now h) (λ e. Breach strip.now e.code e.place) }
{
    if limits::FILE < strip.len() {
        return Err(refuse(card::LONG, 0));
    }
    if strip.len() < 8 {
        return Err(refuse(card::SHORT, strip.len()));
    }
    if !strip.starts_with(b"WGP") {
        return Err(refuse(card::MARK, 0));
    }
    if !opcode::is_known(strip[3] as u16) {
        return Err(refuse(card::VERSION, 3));
    }
    if strip[4] != 0 {
        return Err(refuse(card::VERSION, 3));
    }
    let p = strip[5] as usize;
    if limits::PARAMETERS < p {
        return Err(refuse(card::COUNT, 5));
    }
    let l = strip[6] as usize;
    if limits::LOCALS < l {
        return Err(refuse(card::COUNT, 6));
    }
    let r = strip[7] as usize;
    if limits::RESULTS < r {
        return Err(refuse(card::COUNT, 7));
    }
    kinds(strip, p + l + r)
}

// The n kind bytes.
fn kinds(strip: &[u8], n: usize) -> Result<(), Refusal>
    requires { (8 ≤ length strip.now) × (n ≤ local_count + result_limit) }
    ensures { KindsSay strip.now n result }
{
    for k in 0..n {
        if strip.len() <= 8 + k {
            return Err(refuse(card::SHORT, strip.len()));
        }
        if !is_kind(strip[8 + k]) {
            return Err(refuse(card::KIND, 8 + k));
        }
    }
    Ok(())
}

fn is_kind(b: u8) -> bool
    ensures { result ≡ is_kind b }
{
    matches!(b, kind::I32 | kind::I64 | kind::V128)
}
