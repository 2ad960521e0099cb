// What is printed of a call.
use crate::rooms::before;
use card::Answer;
use hexadecimal::Hex;
use std::fmt;

// What results, images and outputs hold before a call.
pub const UNTOUCHED: u8 = 0xEE;

// What a call leaves: the answer, the results if there are any, and each part of the memory that is not as it was.
#[derive(Drop)]
pub struct Left<'a> {
    pub answer: Answer,
    pub results: &'a [u8],
    pub memory: &'a [u8],
}

impl<'a> fmt::Display for Left<'a> {
    fn fmt<W: fmt::Write>(&self, f: &mut fmt::Formatter<W>) -> fmt::Result {
        let Answer { code, place, steps } = self.answer;
        write!(f, "{code} {place} {steps}")?;
        if !self.results.is_empty() {
            write!(f, " {}", Hex(self.results))?;
        }
        write!(f, "{}", Changes(self.memory))
    }
}

// Of each part its first address and its bytes.
#[derive(Clone, Copy)]
struct Changes<'a>(&'a [u8]);

impl<'a> fmt::Display for Changes<'a> {
    fn fmt<W: fmt::Write>(&self, f: &mut fmt::Formatter<W>) -> fmt::Result {
        let mut next = None;
        let bytes = self.0.iter().enumerate();
        for (address, byte) in bytes.filter(|(address, byte)| **byte != before(*address)) {
            if next != Some(address) {
                write!(f, " {address}:")?;
            }
            write!(f, "{byte:02x}")?;
            next = address.checked_add(1);
        }
        Ok(())
    }
}
