// How many cases there were of each sort, and how many of them differed.
use std::fmt;
use std::ops::Add;

#[derive(Clone, Copy, Default)]
pub(crate) struct Count {
    pub(crate) calls: u64,
    pub(crate) traps: u64,
    pub(crate) refusals: u64,
    pub(crate) differ: u64,
}

impl Add for Count {
    type Output = Count;

    fn add(self, more: Count) -> Count {
        Count {
            calls: self.calls.wrapping_add(more.calls),
            traps: self.traps.wrapping_add(more.traps),
            refusals: self.refusals.wrapping_add(more.refusals),
            differ: self.differ.wrapping_add(more.differ),
        }
    }
}

impl fmt::Display for Count {
    fn fmt<W: fmt::Write>(&self, f: &mut fmt::Formatter<W>) -> fmt::Result {
        let Count {
            calls,
            traps,
            refusals,
            differ,
        } = self;
        write!(
            f,
            "{calls} calls, {traps} traps, {refusals} refusals, {differ} differ"
        )
    }
}
