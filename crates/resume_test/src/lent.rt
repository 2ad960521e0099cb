// What the calls of a case are lent.
use crate::digest::Digest;
use cases::{Left, UNTOUCHED};
use std::alloc::{AllocError, Global};
use strip::Answer;

// Of results and of an image no more are lent, whatever a line says: an image has fewer bytes.
pub(crate) const RESULTS: usize = 128;

pub(crate) const IMAGE: usize = image::BYTES + 64;

#[derive(Clone, PartialEq, Drop)]
pub(crate) struct Lent<'a> {
    strip: &'a [u8],
    memory: Vec<u8>,
    results: Vec<u8>,
    image: Vec<u8>,
}

impl<'a> Lent<'a> {
    // So many bytes of results, as they are before a first call.
    pub(crate) fn of(
        alloc: Global,
        strip: &'a [u8],
        memory: Vec<u8>,
        results_len: usize,
        image: Vec<u8>,
    ) -> Result<Lent<'a>, AllocError> {
        Ok(Lent {
            strip,
            memory,
            results: vec![in alloc; UNTOUCHED; results_len]?,
            image,
        })
    }

    pub(crate) fn image(&self) -> &[u8] {
        &self.image
    }

    pub(crate) fn run(&mut self, args: &[u8], budget: u32) -> Answer {
        let Lent {
            strip,
            memory,
            results,
            image,
        } = self;
        strip::run(strip, args, memory, results, image, budget)
    }

    pub(crate) fn resume(&mut self, budget: u32) -> Answer {
        let Lent {
            strip,
            memory,
            results,
            image,
        } = self;
        strip::resume(strip, memory, results, image, budget)
    }

    // Beside the image, what the call that answered so has left.
    pub(crate) fn left(&self, answer: Answer) -> Left<'_> {
        Left {
            answer,
            results: &self.results,
            memory: &self.memory,
        }
    }

    pub(crate) fn digest(&self, before: Digest, answer: Answer) -> Digest {
        before
            .with_answer(answer)
            .with_bytes(&self.memory)
            .with_bytes(&self.results)
            .with_bytes(&self.image)
    }

    // A number of two bytes, as far as the image reaches.
    pub(crate) fn put(&mut self, at: usize, n: usize) {
        let two = n.to_le_bytes();
        for (byte, part) in self.image.iter_mut().skip(at).zip(&two[..2]) {
            *byte = *part;
        }
    }

    pub(crate) fn flip(&mut self, at: usize, bits: u8) {
        if let Some(byte) = self.image.get_mut(at) {
            *byte ^= bits;
        }
    }
}
