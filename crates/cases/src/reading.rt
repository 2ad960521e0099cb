// What the lines of a file of cases are made of: fields with a blank between them, each a word, a number or bytes.
ghost use Rattle.std.specs.Prelude.{◌≡◌, ◌+◌, ◌-◌, ◌≤◌, ◌<◌, ◌==◌, IfOk, length, drop, vec_len};
ghost use Rattle.std.specs.List.{position_or_len};
ghost use Rattle.io.specs.Counts.{IsPrefixLen};
ghost use Rattle.limits.specs.Limits.{file_limit};
ghost use Rattle.cases.specs.Fields.{word_of, after_word, number_of};

use crate::rooms::strip_room;
use crate::values::{items, number};
use std::alloc::AllocError;

// What is done, the case's name and its strip: the first fields of its line.
#[derive(Drop)]
pub struct Case<'a> {
    pub rt: &'a HostRuntime,
    pub task: &'a [u8],
    pub name: &'a [u8],
    pub strip: Vec<u8>,
}

impl<'a> Case<'a> {
    pub fn of(rt: &'a HostRuntime, line: &mut Fields<'a>) -> Result<Case<'a>, AllocError>
        ensures task { IfOk result (λ case. case.task.now ≡ word_of line.old.rest.now) }
        ensures name { IfOk result (λ case. case.name.now ≡ word_of (after_word line.old.rest.now)) }
        ensures strip { IfOk result (λ case. vec_len case.strip ≤ file_limit + 1) }
        ensures rest { line.new.rest.now ≡ after_word (after_word (after_word line.old.rest.now)) }
    {
        let task = line.word();
        let name = line.word();
        let mut room = strip_room();
        let len = line.bytes(&mut room);
        let strip = Vec::from_slice(rt.alloc(), &room[..len])?;
        Ok(Case {
            rt,
            task,
            name,
            strip,
        })
    }
}

// The fields of a line from one on. A field that the line lacks is an empty word, 0 and no bytes.
#[derive(Clone, Copy)]
pub struct Fields<'a> {
    rest: &'a [u8],
}

impl<'a> Fields<'a> {
    pub fn of(line: &'a [u8]) -> Fields<'a>
        ensures { result.rest.now ≡ line.now }
    {
        Fields { rest: line }
    }

    // What has not been read yet.
    pub fn rest(self) -> &'a [u8]
        ensures { result.now ≡ self.entry.rest.now }
    {
        let Fields { rest } = self;
        rest
    }

    // All up to the next blank. The field after it begins beyond.
    pub fn word(&mut self) -> &'a [u8]
        ensures word { result.now ≡ word_of self.old.rest.now }
        ensures rest { self.new.rest.now ≡ after_word self.old.rest.now }
    {
        let line = self.rest;
        let end = find(line, 0, b' ');
        self.rest = line.get(end + 1..).unwrap_or(&[]);
        &line[..end]
    }

    pub fn number(&mut self) -> u32
        ensures value { result ≡ number_of (word_of self.old.rest.now) }
        ensures rest { self.new.rest.now ≡ after_word self.old.rest.now }
    {
        number(self.word())
    }

    // A number of bytes at the start of the room, all of them at most.
    pub fn length(&mut self, room: &[u8]) -> usize
        ensures len { IsPrefixLen result room.now }
        ensures rest { self.new.rest.now ≡ after_word self.old.rest.now }
    {
        room.len().min(self.number() as usize)
    }

    // Items with full stops between them: hexadecimal digits, or a count, `x` and digits that are repeated so often. `-` is none.
    pub fn bytes(&mut self, room: &mut [u8]) -> usize
        ensures len { IsPrefixLen result room.new }
        ensures rest { self.new.rest.now ≡ after_word self.old.rest.now }
    {
        items(self.word(), room)
    }
}

// The first `c` from `at` on, or the end; `at` itself where that lies beyond.
pub fn find(s: &[u8], at: usize, c: u8) -> usize
    ensures within { (at ≤ result) × (result ≤ at + (length s.now - at)) }
    ensures first { result ≡ at + position_or_len (λ b. b == c) (drop at s.now) }
{
    let Some(rest) = s.get(at..) else {
        return at;
    };
    at + first(rest, c)
}

fn first(s: &[u8], c: u8) -> usize
    ensures first { result ≡ position_or_len (λ b. b == c) s.now }
    ensures within { result ≤ length s.now }
{
    s.iter().position(|b| *b == c).unwrap_or(s.len())
}

// Where field k starts.
pub fn field(line: &[u8], k: usize) -> usize
    ensures { result ≤ length line.now }
{
    line.len() - from(line, k).rest().len()
}

// The fields from k on.
fn from(line: &[u8], k: usize) -> Fields<'_>
    ensures { length result.rest.now ≤ length line.now }
{
    let mut fields = Fields::of(line);
    for _ in 0..k {
        fields.word();
    }
    fields
}

pub fn number_in(line: &[u8], k: usize) -> usize
    ensures { result < 4294967296 }
{
    from(line, k).number() as usize
}

// A number of bytes at the start of buf, all of them at most.
pub fn length_in(line: &[u8], k: usize, buf: &[u8]) -> usize
    ensures { IsPrefixLen result buf.now }
{
    from(line, k).length(buf)
}

// Items with full stops between them: hexadecimal digits, or a count, `x` and digits that are repeated so often.
pub fn bytes_in(line: &[u8], k: usize, out: &mut [u8]) -> usize
    ensures { IsPrefixLen result out.new }
{
    from(line, k).bytes(out)
}
