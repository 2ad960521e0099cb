// How many cases there were, and how many of them failed.
use std::fmt;

#[derive(Clone, Copy, Default)]
pub(crate) struct Count {
    pub(crate) cases: u64,
    pub(crate) failures: u64,
}

impl Count {
    pub(crate) fn add(&mut self, held: bool) {
        self.cases = self.cases.wrapping_add(1);
        if !held {
            self.failures = self.failures.wrapping_add(1);
        }
    }
}

impl fmt::Display for Count {
    fn fmt<W: fmt::Write>(&self, f: &mut fmt::Formatter<W>) -> fmt::Result {
        write!(f, "{} {}", self.cases, self.failures)
    }
}
