// The check of a whole strip: its header, then its instructions one after the other.
#![tactic(auto)]

mod blocks;
mod body;
mod header;
mod numbers;
mod place;
mod stack;
mod turns;
mod typing;
mod walk;

ghost use Rattle.std.specs.Prelude.{◌≡◌, MatchResult};
ghost use Rattle.rules.specs.Strip.{Valid};
ghost use Rattle.rules.specs.Breach.{Breach};
ghost use Rattle.checker.specs.Check.{Checked};
ghost use Rattle.checker.specs.Walk.{start_of};

pub use blocks::LOOP;
use card::Answer;
pub use place::{MARKS, OPEN, Surveyed, survey};
pub use turns::State;
pub use walk::{follow, outset};

// The line of the card that a strip breaks, and the place where it does.
#[derive(Clone, Copy)]
pub struct Refusal {
    pub code: u8,
    pub place: usize,
}

pub fn check(strip: &[u8]) -> Answer
    ensures { Checked strip.now result }
{
    match inspect(strip) {
        Ok(()) => answer(card::DONE, 0),
        Err(e) => answer(e.code, e.place),
    }
}

// The header, and then the instructions. No instruction stands at 0: nothing is noted.
fn inspect(strip: &[u8]) -> Result<(), Refusal>
    ensures { MatchResult result (λ _. Valid strip.now) (λ e. Breach strip.now e.code e.place) }
{
    let h = header::read(strip)?;
    let mut held = [0u8; limits::STACK];
    let mut words = [0u32; limits::NEST];
    let mut begun = [0usize; limits::NEST];
    body::body(
        strip, h.version, h.locals, h.takes, h.start, 0, &mut held, &mut words, &mut begun,
    )?;
    Ok(())
}

// Where a strip's instructions begin: after the counts and the kind bytes that they declare.
pub fn start(strip: &[u8]) -> usize
    ensures { result ≡ start_of strip.now }
{
    if strip.len() < 8 {
        return 8;
    }
    8 + strip[5] as usize + strip[6] as usize + strip[7] as usize
}

// An answer of the check: no steps.
fn answer(code: u8, place: usize) -> Answer
    ensures { (result.code ≡ code) × (result.place ≡ place) × (result.steps ≡ 0) }
{
    Answer {
        code,
        place,
        steps: 0,
    }
}

pub(crate) fn refuse(code: u8, place: usize) -> Refusal
    ensures { (result.code ≡ code) × (result.place ≡ place) }
{
    Refusal { code, place }
}
