// What a case's line says of it.
use crate::count::Count;
use crate::reason::Reason;

// A room of results in which none is written.
pub(crate) const UNTOUCHED: [u8; 64] = [0xEE; 64];

#[derive(Clone, Copy)]
pub(crate) enum Expected {
    // DONE, with these results, and none written beyond them.
    Results([u8; 64]),
    // TRAP, and no result is written.
    Trap,
    // The check turns it away for that reason, and so does the run.
    Refusal(Option<Reason>),
}

impl Expected {
    // One case of its sort.
    pub(crate) fn counted(&self, held: bool) -> Count {
        let mut count = Count::default();
        match self {
            Expected::Results(_) => count.calls = 1,
            Expected::Trap => count.traps = 1,
            Expected::Refusal(_) => count.refusals = 1,
        }
        if !held {
            count.differ = 1;
        }
        count
    }
}
