// What the code asks of an instruction. An instruction goes from function to function as one number, its id: the first byte, or 256
// and FD's number.
#![tactic(auto)]

pub mod kind;
mod table;

ghost use Rattle.std.specs.Prelude.{◌≡◌};
ghost use Rattle.opcode.specs.Table.{known};
ghost use Rattle.opcode.specs.Number.{id_of, since_of};
ghost use Rattle.opcode.specs.Entry.{class_in, moved_in, lanes_in, group_in, effect_in};

pub use table::entry;

// The classes of immediates.
pub const CLASS_NOTHING: u8 = 0;

pub const CLASS_INDEX: u8 = 1;

pub const CLASS_WORD: u8 = 2;

pub const CLASS_LONG: u8 = 3;

pub const CLASS_MEMORY: u8 = 4;

pub const CLASS_MEMORY_LANE: u8 = 5;

pub const CLASS_LANE: u8 = 6;

pub const CLASS_BYTES: u8 = 7;

pub const CLASS_LANES: u8 = 8;

pub const CLASS_BLOCK_TYPE: u8 = 9;

// Two more, of what is not carried.
pub const CLASS_FLOAT: u8 = 10;

pub const CLASS_UNASSIGNED: u8 = 11;

// The groups: version 1's plain opcodes, then those of the enumeration of operations, then what version 2 adds, then what is not carried.
pub const GROUP_END: u8 = 0;

pub const GROUP_DROP: u8 = 1;

pub const GROUP_LOCAL_GET: u8 = 2;

pub const GROUP_LOCAL_SET: u8 = 3;

pub const GROUP_LOCAL_TEE: u8 = 4;

pub const GROUP_I32_CONST: u8 = 5;

pub const GROUP_I64_CONST: u8 = 6;

pub const GROUP_I32_ADD: u8 = 7;

pub const GROUP_I32_SUB: u8 = 8;

pub const GROUP_LOAD: u8 = 9;

pub const GROUP_LOAD_LANE: u8 = 10;

pub const GROUP_STORE: u8 = 11;

pub const GROUP_STORE_LANE: u8 = 12;

pub const GROUP_CONST: u8 = 13;

pub const GROUP_SHUFFLE: u8 = 14;

pub const GROUP_SPLAT: u8 = 15;

pub const GROUP_EXTRACT: u8 = 16;

pub const GROUP_REPLACE: u8 = 17;

pub const GROUP_UNARY: u8 = 18;

pub const GROUP_BINARY: u8 = 19;

pub const GROUP_BITSELECT: u8 = 20;

pub const GROUP_TEST: u8 = 21;

pub const GROUP_SHIFT: u8 = 22;

pub const GROUP_I32_EQZ: u8 = 23;

pub const GROUP_I32_LT_U: u8 = 24;

pub const GROUP_BLOCK: u8 = 25;

pub const GROUP_LOOP: u8 = 26;

pub const GROUP_BR: u8 = 27;

pub const GROUP_BR_IF: u8 = 28;

// The first byte of the vector instructions.
pub const PREFIX: u8 = 0xFD;

// The latest version of the format; the first is 1.
pub const LATEST: u16 = 2;

// The id of the prefix with any number from 256 on.
pub const BEYOND: u32 = 512;

pub fn is_known(version: u16) -> bool
    ensures { result ≡ known version }
{
    1 <= version && version <= LATEST
}

// The first version that has the instructions with this first byte. No arm has two neighbours, as in the table.
pub fn since(first: u8) -> u16
    ensures { result ≡ since_of first }
{
    match first {
        0x02 | 0x0C | 0x45 | 0x49 => 2,
        0x03 | 0x0D => 2,
        _ => 1,
    }
}

pub fn id_of(first: u8, number: u32) -> u32
    ensures { result ≡ id_of first number }
{
    if first != PREFIX {
        return first as u32;
    }
    if number < 256 { 256 + number } else { BEYOND }
}

// The class of what follows the opcode.
pub fn immediates(entry: u64) -> u8
    ensures { result ≡ class_in entry }
{
    (entry % 256) as u8
}

// The bytes that an access moves; 0 where memory is not touched.
pub fn moved(entry: u64) -> u32
    ensures { result ≡ moved_in entry }
{
    (entry / 256 % 256) as u32
}

// How many lanes a lane index chooses among; 0 where there is no lane index.
pub fn lanes(entry: u64) -> u32
    ensures { result ≡ lanes_in entry }
{
    (entry / 65536 % 256) as u32
}

// The group that an instruction belongs to.
pub fn group(entry: u64) -> u8
    ensures { result ≡ group_in entry }
{
    (entry / 16777216 % 256) as u8
}

// The kinds' bytes: the top operand in byte 0, those below it in bytes 1 and 2, what is left in byte 3; 0 where there is none.
pub fn effect(entry: u64) -> u32
    ensures { result ≡ effect_in entry }
{
    (entry / 0x1_0000_0000) as u32
}
