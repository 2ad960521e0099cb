// Document 002 in numbers: an entry of eight bytes for each id. From the highest: the kind of what is left on the stack; the kinds of the
// third operand, the second and the top one; the group; the lanes that a lane index chooses among; the bytes that an access moves; the
// class of the immediates.
ghost use Rattle.std.specs.Prelude.{◌≡◌};
ghost use Rattle.opcode.specs.Number.{row_of};
ghost use Rattle.opcode.specs.Entry.{entry_of};

use crate::{
    CLASS_BLOCK_TYPE, CLASS_BYTES, CLASS_FLOAT, CLASS_INDEX, CLASS_LANE, CLASS_LANES, CLASS_LONG,
    CLASS_MEMORY, CLASS_MEMORY_LANE, CLASS_NOTHING, CLASS_UNASSIGNED, CLASS_WORD,
};

const END: u64 = CLASS_NOTHING as u64;

const DROP: u64 = 0x01_00_00_00 + CLASS_NOTHING as u64;

const LOCAL_GET: u64 = 0x02_00_00_00 + CLASS_INDEX as u64;

const LOCAL_SET: u64 = 0x03_00_00_00 + CLASS_INDEX as u64;

const LOCAL_TEE: u64 = 0x04_00_00_00 + CLASS_INDEX as u64;

const I32_CONST: u64 = 0x7F_00_00_00_05_00_00_00 + CLASS_WORD as u64; // -> i32

const I64_CONST: u64 = 0x7E_00_00_00_06_00_00_00 + CLASS_LONG as u64; // -> i64

const I32_ADD: u64 = 0x7F_00_7F_7F_07_00_00_00 + CLASS_NOTHING as u64; // i32 i32 -> i32

const I32_SUB: u64 = 0x7F_00_7F_7F_08_00_00_00 + CLASS_NOTHING as u64; // i32 i32 -> i32

const LOAD_8: u64 = 0x7B_00_00_7F_09_00_01_00 + CLASS_MEMORY as u64; // i32 -> v128

const LOAD_16: u64 = 0x7B_00_00_7F_09_00_02_00 + CLASS_MEMORY as u64; // i32 -> v128

const LOAD_32: u64 = 0x7B_00_00_7F_09_00_04_00 + CLASS_MEMORY as u64; // i32 -> v128

const LOAD_64: u64 = 0x7B_00_00_7F_09_00_08_00 + CLASS_MEMORY as u64; // i32 -> v128

const LOAD_128: u64 = 0x7B_00_00_7F_09_00_10_00 + CLASS_MEMORY as u64; // i32 -> v128

const LOAD_LANE_8: u64 = 0x7B_00_7F_7B_0A_10_01_00 + CLASS_MEMORY_LANE as u64; // i32 v128 -> v128

const LOAD_LANE_16: u64 = 0x7B_00_7F_7B_0A_08_02_00 + CLASS_MEMORY_LANE as u64; // i32 v128 -> v128

const LOAD_LANE_32: u64 = 0x7B_00_7F_7B_0A_04_04_00 + CLASS_MEMORY_LANE as u64; // i32 v128 -> v128

const LOAD_LANE_64: u64 = 0x7B_00_7F_7B_0A_02_08_00 + CLASS_MEMORY_LANE as u64; // i32 v128 -> v128

const STORE_128: u64 = 0x00_00_7F_7B_0B_00_10_00 + CLASS_MEMORY as u64; // i32 v128 ->

const STORE_LANE_8: u64 = 0x00_00_7F_7B_0C_10_01_00 + CLASS_MEMORY_LANE as u64; // i32 v128 ->

const STORE_LANE_16: u64 = 0x00_00_7F_7B_0C_08_02_00 + CLASS_MEMORY_LANE as u64; // i32 v128 ->

const STORE_LANE_32: u64 = 0x00_00_7F_7B_0C_04_04_00 + CLASS_MEMORY_LANE as u64; // i32 v128 ->

const STORE_LANE_64: u64 = 0x00_00_7F_7B_0C_02_08_00 + CLASS_MEMORY_LANE as u64; // i32 v128 ->

const CONST: u64 = 0x7B_00_00_00_0D_00_00_00 + CLASS_BYTES as u64; // -> v128

const SHUFFLE: u64 = 0x7B_00_7B_7B_0E_00_00_00 + CLASS_LANES as u64; // v128 v128 -> v128

const SPLAT: u64 = 0x7B_00_00_7F_0F_00_00_00 + CLASS_NOTHING as u64; // i32 -> v128

const SPLAT_64: u64 = 0x7B_00_00_7E_0F_00_00_00 + CLASS_NOTHING as u64; // i64 -> v128

const EXTRACT_8: u64 = 0x7F_00_00_7B_10_10_00_00 + CLASS_LANE as u64; // v128 -> i32

const EXTRACT_16: u64 = 0x7F_00_00_7B_10_08_00_00 + CLASS_LANE as u64; // v128 -> i32

const EXTRACT_32: u64 = 0x7F_00_00_7B_10_04_00_00 + CLASS_LANE as u64; // v128 -> i32

const EXTRACT_64: u64 = 0x7E_00_00_7B_10_02_00_00 + CLASS_LANE as u64; // v128 -> i64

const REPLACE_8: u64 = 0x7B_00_7B_7F_11_10_00_00 + CLASS_LANE as u64; // v128 i32 -> v128

const REPLACE_16: u64 = 0x7B_00_7B_7F_11_08_00_00 + CLASS_LANE as u64; // v128 i32 -> v128

const REPLACE_32: u64 = 0x7B_00_7B_7F_11_04_00_00 + CLASS_LANE as u64; // v128 i32 -> v128

const REPLACE_64: u64 = 0x7B_00_7B_7E_11_02_00_00 + CLASS_LANE as u64; // v128 i64 -> v128

const UNARY: u64 = 0x7B_00_00_7B_12_00_00_00 + CLASS_NOTHING as u64; // v128 -> v128

const BINARY: u64 = 0x7B_00_7B_7B_13_00_00_00 + CLASS_NOTHING as u64; // v128 v128 -> v128

const BITSELECT: u64 = 0x7B_7B_7B_7B_14_00_00_00 + CLASS_NOTHING as u64; // v128 v128 v128 -> v128

const TEST: u64 = 0x7F_00_00_7B_15_00_00_00 + CLASS_NOTHING as u64; // v128 -> i32

const SHIFT: u64 = 0x7B_00_7B_7F_16_00_00_00 + CLASS_NOTHING as u64; // v128 i32 -> v128

const I32_EQZ: u64 = 0x7F_00_00_7F_17_00_00_00 + CLASS_NOTHING as u64; // i32 -> i32

const I32_LT_U: u64 = 0x7F_00_7F_7F_18_00_00_00 + CLASS_NOTHING as u64; // i32 i32 -> i32

const BLOCK: u64 = 0x19_00_00_00 + CLASS_BLOCK_TYPE as u64;

const LOOP: u64 = 0x1A_00_00_00 + CLASS_BLOCK_TYPE as u64;

const BR: u64 = 0x1B_00_00_00 + CLASS_INDEX as u64;

const BR_IF: u64 = 0x1C_00_00_00 + CLASS_INDEX as u64;

const FLOATS: u64 = 0x1D_00_00_00 + CLASS_FLOAT as u64;

const NONE: u64 = 0x1D_00_00_00 + CLASS_UNASSIGNED as u64;

// No arm has two neighbours: the even numbers stand in one and the odd ones in another. Neighbours would be compiled to a search by
// comparisons, and numbers that stand alone are compiled to a table in memory.
pub fn entry(id: u32) -> u64
    ensures { result ≡ entry_of (row_of id) }
{
    match id {
        0x02 => BLOCK,
        0x03 => LOOP,
        0x0B => END,
        0x0C => BR,
        0x0D => BR_IF,
        0x1A => DROP,
        0x20 => LOCAL_GET,
        0x21 => LOCAL_SET,
        0x22 => LOCAL_TEE,
        0x41 => I32_CONST,
        0x42 => I64_CONST,
        0x45 => I32_EQZ,
        0x49 => I32_LT_U,
        0x6A => I32_ADD,
        0x6B => I32_SUB,
        0x107 => LOAD_8,
        0x108 => LOAD_16,
        0x15C => LOAD_32,
        0x109 => LOAD_32,
        0x102 | 0x104 | 0x106 | 0x10A => LOAD_64,
        0x101 | 0x103 | 0x105 | 0x15D => LOAD_64,
        0x100 => LOAD_128,
        0x154 => LOAD_LANE_8,
        0x155 => LOAD_LANE_16,
        0x156 => LOAD_LANE_32,
        0x157 => LOAD_LANE_64,
        0x10B => STORE_128,
        0x158 => STORE_LANE_8,
        0x159 => STORE_LANE_16,
        0x15A => STORE_LANE_32,
        0x15B => STORE_LANE_64,
        0x10C => CONST,
        0x10D => SHUFFLE,
        0x110 => SPLAT,
        0x10F | 0x111 => SPLAT,
        0x112 => SPLAT_64,
        0x116 => EXTRACT_8,
        0x115 => EXTRACT_8,
        0x118 => EXTRACT_16,
        0x119 => EXTRACT_16,
        0x11B => EXTRACT_32,
        0x11D => EXTRACT_64,
        0x117 => REPLACE_8,
        0x11A => REPLACE_16,
        0x11C => REPLACE_32,
        0x11E => REPLACE_64,
        0x160 | 0x162 | 0x17C | 0x17E | 0x180 | 0x188 | 0x18A => UNARY,
        0x1A0 | 0x1A8 | 0x1AA | 0x1C0 | 0x1C8 | 0x1CA => UNARY,
        0x14D | 0x161 | 0x17D | 0x17F | 0x181 | 0x187 | 0x189 => UNARY,
        0x1A1 | 0x1A7 | 0x1A9 | 0x1C1 | 0x1C7 | 0x1C9 => UNARY,
        0x10E | 0x124 | 0x126 | 0x128 | 0x12A | 0x12C | 0x12E | 0x130 | 0x132 => BINARY,
        0x134 | 0x136 | 0x138 | 0x13A | 0x13C | 0x13E | 0x140 | 0x14E | 0x150 => BINARY,
        0x166 | 0x16E | 0x170 | 0x172 | 0x176 | 0x178 | 0x182 | 0x186 | 0x18E => BINARY,
        0x190 | 0x192 | 0x196 | 0x198 | 0x19C | 0x19E | 0x1AE | 0x1B6 | 0x1B8 => BINARY,
        0x1BA | 0x1BC | 0x1BE | 0x1CE | 0x1D6 | 0x1D8 | 0x1DA | 0x1DC | 0x1DE => BINARY,
        0x123 | 0x125 | 0x127 | 0x129 | 0x12B | 0x12D | 0x12F | 0x131 | 0x133 | 0x135 => BINARY,
        0x137 | 0x139 | 0x13B | 0x13D | 0x13F | 0x14F | 0x151 | 0x165 | 0x16F | 0x171 => BINARY,
        0x173 | 0x177 | 0x179 | 0x17B | 0x185 | 0x18F | 0x191 | 0x193 | 0x195 | 0x197 => BINARY,
        0x199 | 0x19B | 0x19D | 0x19F | 0x1B1 | 0x1B5 | 0x1B7 | 0x1B9 | 0x1BD | 0x1BF => BINARY,
        0x1D1 | 0x1D5 | 0x1D7 | 0x1D9 | 0x1DB | 0x1DD | 0x1DF => BINARY,
        0x152 => BITSELECT,
        0x164 | 0x184 | 0x1A4 | 0x1C4 => TEST,
        0x153 | 0x163 | 0x183 | 0x1A3 | 0x1C3 => TEST,
        0x16C | 0x18C | 0x1AC | 0x1CC => SHIFT,
        0x16B | 0x16D | 0x18B | 0x18D | 0x1AB | 0x1AD | 0x1CB | 0x1CD => SHIFT,
        0x114 | 0x120 | 0x122 | 0x142 | 0x144 | 0x146 | 0x148 | 0x14A | 0x14C | 0x15E => FLOATS,
        0x168 | 0x16A | 0x174 | 0x17A | 0x194 | 0x1E0 | 0x1E4 | 0x1E6 | 0x1E8 | 0x1EA => FLOATS,
        0x1EC | 0x1F0 | 0x1F2 | 0x1F4 | 0x1F6 | 0x1F8 | 0x1FA | 0x1FC | 0x1FE => FLOATS,
        0x113 | 0x11F | 0x121 | 0x141 | 0x143 | 0x145 | 0x147 | 0x149 | 0x14B | 0x15F => FLOATS,
        0x167 | 0x169 | 0x175 | 0x1E1 | 0x1E3 | 0x1E5 | 0x1E7 | 0x1E9 | 0x1EB | 0x1ED => FLOATS,
        0x1EF | 0x1F1 | 0x1F3 | 0x1F5 | 0x1F7 | 0x1F9 | 0x1FB | 0x1FD | 0x1FF => FLOATS,
        _ => NONE,
    }
}
