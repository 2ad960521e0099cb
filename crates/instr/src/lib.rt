// One instruction: decoded from any place of some bytes, encoded in its shortest form. Each is told the version.
#![tactic(auto)]

mod decoding;
mod encoding;
mod immediates;
mod reading;
mod scanning;

ghost use Rattle.std.specs.Prelude.{◌≡◌, ◌≤◌, ◌^◌, true, leb, length};
ghost use Rattle.card.specs.Card.{SHORT};
ghost use Rattle.opcode.specs.BlockType.{is_block_type};
ghost use Rattle.opcode.specs.Number.{row_of};
ghost use Rattle.opcode.specs.Table.{known, row_at};
ghost use Rattle.instr.specs.Inner.Steps.{Tabled};

pub use decoding::{decode, fetch};
pub use encoding::{encode, encoded_len};
pub use scanning::{scan, summary};

// The opcode's two numbers and the immediates, those that the instruction lacks zero. `word` and `long` are the bits of a signed number.
#[derive(Clone, Copy, Debug, PartialEq, Eq)]
pub struct Instr {
    pub first: u8,
    pub number: u32,
    pub index: u32,
    pub word: u32,
    pub long: u64,
    pub align: u32,
    pub offset: u32,
    pub lane: u8,
    pub block: u8,
    pub bytes: [u8; 16],
}

#[derive(Clone, Copy, Debug, PartialEq, Eq)]
pub struct Decoded {
    pub code: u8,
    pub place: usize,
    pub len: usize,
    pub instr: Instr,
}

// What the run asks: the instruction, the id by which the table knows it, and what the table says of it.
#[derive(Clone, Copy, Debug, PartialEq, Eq)]
pub struct Fetched {
    pub id: u32,
    pub entry: u64,
    pub decoded: Decoded,
}

// What the check asks: what the table says of the instruction, and the one immediate that the rules read: the index of a local or of a
// block, or a block type; 0 where there is none of these.
#[derive(Clone, Copy, Debug, PartialEq, Eq)]
pub struct Scanned {
    pub code: u8,
    pub place: usize,
    pub len: usize,
    pub entry: u64,
    pub immediate: u32,
}

#[derive(Clone, Copy, Debug, PartialEq, Eq)]
pub struct Encoded {
    pub code: u8,
    pub place: usize,
    pub len: usize,
}

// Why there is none: the card's code, and the place.
#[derive(Clone, Copy, Debug, PartialEq, Eq)]
pub struct Refusal {
    pub code: u8,
    pub place: usize,
}

impl Refusal {
    pub(crate) fn new(code: u8, place: usize) -> Refusal
        ensures { result ≡ record { code = code; place = place } }
    {
        Refusal { code, place }
    }

    // The file stops before it is whole.
    pub(crate) fn short(s: &[u8]) -> Refusal
        ensures { result ≡ record { code = SHORT; place = length s.now } }
    {
        Refusal::new(card::SHORT, s.len())
    }
}

// What the table says of an instruction in a strip of this version. Those of version 1 are the most, and are told by their group.
pub(crate) fn entry_in(version: u16, first: u8, number: u32) -> u64
    requires { known version ≡ true }
    ensures { Tabled version first number result }
{
    let entry = opcode::entry(opcode::id_of(first, number));
    if opcode::group(entry) < opcode::GROUP_I32_EQZ {
        return entry;
    }
    opcode::entry(id_in(version, first, number))
}

// The id by which the table knows an instruction, BEYOND where this version has not its first byte yet.
pub(crate) fn id_in(version: u16, first: u8, number: u32) -> u32
    ensures { row_of result ≡ row_at version first number }
{
    if first != opcode::PREFIX && version < opcode::since(first) {
        return opcode::BEYOND;
    }
    opcode::id_of(first, number)
}

// Whether 2 to the exponent is at most the bytes moved: these are 16 at most, so an exponent above 4 is too large.
pub(crate) fn exponent_fits(a: u32, moved: u32) -> bool
    requires { moved ≤ 16 }
    ensures { result ≡ leb (2 ^ a) moved }
{
    a <= 4 && 1 << a <= moved
}

// 40, or the kind of a block's one result.
pub(crate) fn is_block_type(b: u8) -> bool
    ensures { result ≡ is_block_type b }
{
    matches!(
        b,
        opcode::kind::EMPTY | opcode::kind::I32 | opcode::kind::I64 | opcode::kind::V128
    )
}
