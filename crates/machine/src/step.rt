// One group of instructions each: operands are read from their slots, and the answer is put in the lowest of these.
pub(crate) mod memory;
pub(crate) mod numbers;
pub(crate) mod vectors;
