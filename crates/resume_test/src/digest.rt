// One number for much that calls leave.
use std::fmt;
use strip::Answer;

#[derive(Clone, Copy, PartialEq, Eq)]
pub(crate) struct Digest(u32);

impl Digest {
    pub(crate) const EMPTY: Digest = Digest(5381);

    pub(crate) fn with_answer(self, answer: Answer) -> Digest {
        self.with(answer.code as u32)
            .with((answer.place & 0xffff_ffff) as u32)
            .with(answer.steps)
    }

    pub(crate) fn with_bytes(self, bytes: &[u8]) -> Digest {
        bytes
            .iter()
            .fold(self, |digest, byte| digest.with(*byte as u32))
    }

    fn with(self, n: u32) -> Digest {
        Digest(self.0.wrapping_mul(16777619).wrapping_add(n))
    }
}

impl fmt::Display for Digest {
    fn fmt<W: fmt::Write>(&self, f: &mut fmt::Formatter<W>) -> fmt::Result {
        write!(f, "{:08x}", self.0)
    }
}
