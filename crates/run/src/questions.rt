// What a run asks before the first instruction, but for the image's buffer.
ghost use Rattle.std.specs.Prelude.{◌≡◌, List, ℕ, length};
ghost use Rattle.run.specs.Inner.Steps.{Asked};

use card::Answer;

// Of a memory and of results of these lengths.
pub(crate) fn ask(strip: &[u8], args: &[u8], memory: usize, out: usize) -> Answer
    ensures { (mem results : List ℕ) → length mem ≡ memory → length results ≡ out → Asked strip.now args.now mem results result }
{
    let verdict = checker::check(strip);
    if verdict.code != card::DONE {
        return verdict;
    }
    if limits::MEMORY < memory {
        return refused(card::ROOM);
    }
    let parameters = strip[5] as usize;
    if args.len() != limits::SLOT * parameters {
        return refused(card::ARGS);
    }
    if out != limits::SLOT * (strip[7] as usize) {
        return refused(card::OUT);
    }
    let end = 8 + parameters;
    if !image::formed(&strip[8..end], args) {
        return refused(card::FORM);
    }
    verdict
}

// Before the first instruction: no place, no steps.
pub(crate) fn refused(code: u8) -> Answer
    ensures { (result.code ≡ code) × (result.place ≡ 0) × (result.steps ≡ 0) }
{
    Answer {
        code,
        place: 0,
        steps: 0,
    }
}
