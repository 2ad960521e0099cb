// The limits of a strip, each under its name (document 01, "The strip file", "Values and shapes", "Instructions"; document 02, C-13, C-15).
#![tactic(auto)]

// A file's bytes.
pub const FILE: usize = 65536;

// A lent memory's bytes.
pub const MEMORY: usize = 1048576;

pub const PARAMETERS: usize = 16;

// Further locals.
pub const LOCALS: usize = 16;

pub const RESULTS: usize = 4;

// Values on the operand stack.
pub const STACK: usize = 256;

// Blocks inside blocks, the strip itself not counted.
pub const NEST: usize = 32;

// The bytes that a value takes on the stack, in arguments and in results.
pub const SLOT: usize = 16;

// The operand stack and the locals, a slot each.
pub const STACK_BYTES: usize = SLOT * STACK;

pub const LOCAL_BYTES: usize = SLOT * (PARAMETERS + LOCALS);
