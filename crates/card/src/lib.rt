// The inspector's card: one name for each code of an answer, and the answer (document 01, "Numbers on the inspector's card").
#![tactic(auto)]

pub const DONE: u8 = 0;

pub const LONG: u8 = 1;

pub const SHORT: u8 = 2;

pub const MARK: u8 = 3;

pub const VERSION: u8 = 4;

pub const COUNT: u8 = 5;

pub const KIND: u8 = 6;

pub const OPCODE: u8 = 7;

pub const FLOAT: u8 = 8;

pub const NUMBER: u8 = 9;

pub const LANE: u8 = 10;

pub const ALIGN: u8 = 11;

pub const LOCAL: u8 = 12;

pub const OPERAND: u8 = 13;

pub const DEEP: u8 = 14;

pub const RESULT: u8 = 15;

pub const TRAILING: u8 = 16;

pub const NEST: u8 = 17;

pub const LABEL: u8 = 18;

pub const ROOM: u8 = 20;

pub const ARGS: u8 = 21;

pub const OUT: u8 = 22;

pub const FORM: u8 = 23;

pub const SMALL: u8 = 24;

pub const IMAGE: u8 = 25;

pub const TRAP: u8 = 30;

pub const BUDGET: u8 = 31;

// What is answered of a strip: a code, a place in it, and the instructions completed.
#[derive(Clone, Copy, PartialEq, Eq)]
pub struct Answer {
    pub code: u8,
    pub place: usize,
    pub steps: u32,
}
