// The instructions' names.
#![tactic(auto)]

mod vector;

ghost use Rattle.std.specs.Prelude.{◌≡◌};
ghost use Rattle.opcode.specs.Number.{name_of};

// The name of the instruction with this id; "" where there is none.
pub fn name(id: u32) -> &'static str
    ensures { result.now ≡ name_of id }
{
    match id {
        0..256 => plain(id as u8),
        256..512 => vector::NAMES[id as usize - 256],
        _ => "",
    }
}

// The name of the instruction that is this first byte alone (Core 6.5).
fn plain(first: u8) -> &'static str
    ensures { result.now ≡ name_of first }
{
    match first {
        0x02 => "block",
        0x03 => "loop",
        0x0B => "end",
        0x0C => "br",
        0x0D => "br_if",
        0x1A => "drop",
        0x20 => "local.get",
        0x21 => "local.set",
        0x22 => "local.tee",
        0x41 => "i32.const",
        0x42 => "i64.const",
        0x45 => "i32.eqz",
        0x49 => "i32.lt_u",
        0x6A => "i32.add",
        0x6B => "i32.sub",
        _ => "",
    }
}
