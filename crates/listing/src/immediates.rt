// The immediates, each with a blank before it, in file order.
ghost use Rattle.std.specs.Prelude.{◌+◌, ◌≤◌, ◌≡◌, true, ◌∷◌, map, pos, length};
ghost use Rattle.text.specs.Decimal.{decimal, spelled};
ghost use Rattle.text.specs.Words.{blank};
ghost use Rattle.leb128.specs.Bits.{integer};
ghost use Rattle.opcode.specs.Table.{latest};
ghost use Rattle.opcode.specs.Number.{class_of};
ghost use Rattle.instr.specs.Layout.{row_in};
ghost use Rattle.listing.specs.Line.{immediates as Line·immediates};
ghost use Rattle.listing.specs.Inner.Parts.{led, Adds};

use instr::Instr;

pub(crate) fn immediates(class: u8, i: Instr, out: &mut [u8], at: usize) -> usize
    requires { (class ≡ class_of (row_in latest i)) × (at + 336 ≤ length out.old) }
    ensures { Adds 336 (led (map spelled (Line·immediates i))) out.old at result out.new }
{
    match class {
        opcode::CLASS_INDEX => number(u64::from(i.index), out, at),
        opcode::CLASS_WORD => word(i.word, out, at),
        opcode::CLASS_LONG => long(i.long, out, at),
        opcode::CLASS_MEMORY => {
            let p = number(u64::from(i.align), out, at);
            number(u64::from(i.offset), out, p)
        }
        opcode::CLASS_MEMORY_LANE => {
            let p = number(u64::from(i.align), out, at);
            let q = number(u64::from(i.offset), out, p);
            number(u64::from(i.lane), out, q)
        }
        opcode::CLASS_LANE => number(u64::from(i.lane), out, at),
        opcode::CLASS_BYTES => bytes(i.bytes, out, at),
        opcode::CLASS_LANES => bytes(i.bytes, out, at),
        opcode::CLASS_BLOCK_TYPE => number(u64::from(i.block), out, at),
        _ => at,
    }
}

fn number(n: u64, out: &mut [u8], at: usize) -> usize
    requires { at + 21 ≤ length out.old }
    ensures { Adds 21 (blank ∷ decimal n) out.old at result out.new }
{
    let to = text::push(b' ', out, at);
    text::decimal(n, out, to)
}

// The bits of an s32.
fn word(v: u32, out: &mut [u8], at: usize) -> usize
    requires { at + 21 ≤ length out.old }
    ensures { Adds 21 (blank ∷ spelled (integer true 32 v)) out.old at result out.new }
{
    let to = text::push(b' ', out, at);
    text::signed(i64::from(v.cast_signed()), out, to)
}

// Those of an s64.
fn long(v: u64, out: &mut [u8], at: usize) -> usize
    requires { at + 21 ≤ length out.old }
    ensures { Adds 21 (blank ∷ spelled (integer true 64 v)) out.old at result out.new }
{
    let to = text::push(b' ', out, at);
    text::signed(v.cast_signed(), out, to)
}

fn bytes(b: [u8; 16], out: &mut [u8], at: usize) -> usize
    requires { at + 336 ≤ length out.old }
    ensures { Adds 336 (led (map spelled (map pos b))) out.old at result out.new }
{
    let mut to = at;
    for x in &b {
        to = number(u64::from(*x), out, to);
    }
    to
}
