// The operands of an operation, from their places on the stack. Each arm of a `match` over the operations reads its own: read before the
// `match`, a vector would reach the arms byte by byte.
ghost use Rattle.std.specs.Prelude.{◌≡◌};
ghost use Rattle.machine.specs.Inner.Flat.{HasOperands, top_of, low32};

use crate::slot;
use lane::V128;

pub(crate) fn only(s: &[u8], d: usize) -> V128
    requires { HasOperands 1 s.now d }
    ensures { result.bytes ≡ top_of s.now d 1 }
{
    slot::top(s, d, 1)
}

pub(crate) fn left(s: &[u8], d: usize) -> V128
    requires { HasOperands 2 s.now d }
    ensures { result.bytes ≡ top_of s.now d 2 }
{
    slot::top(s, d, 2)
}

// On top.
pub(crate) fn right(s: &[u8], d: usize) -> V128
    requires { HasOperands 2 s.now d }
    ensures { result.bytes ≡ top_of s.now d 1 }
{
    slot::top(s, d, 1)
}

// Of a shift.
pub(crate) fn count(s: &[u8], d: usize) -> u32
    requires { HasOperands 2 s.now d }
    ensures { result ≡ low32 (top_of s.now d 1) }
{
    slot::word(right(s, d))
}
