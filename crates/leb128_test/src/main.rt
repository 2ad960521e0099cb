// Numbers read and written; stdout has what document 01 says of each, worked out by hand.
#![tactic(auto)]

mod rows;

use hexadecimal::Unminded;
use leb128::{S32, S64, U32};
use rows::{read, reads, write};
use std::io;

// It ends well, whatever standard output takes.
fn main(rt: HostRuntime) {
    let _ = numbers(Unminded(&rt));
}

fn numbers(out: Unminded) -> io::Result<()> {
    u32s(out)?;
    s32s(out)?;
    s64s(out)?;
    places(out)?;
    writes(out)?;
    lengths(out)
}

// Whole, refused and cut; padding is welcome. A list a format, since what is whole or refused is another in each.
fn u32s(out: Unminded) -> io::Result<()> {
    reads::<U32>(
        out,
        &[
            // whole
            b"\x00",
            b"\x7F",
            b"\x80\x01",
            b"\x8E\x01",
            b"\x8E\x81\x80\x80\x00",
            b"\xFF\xFF\xFF\xFF\x0F",
            // refused
            b"\x8E\x81\x80\x80\x10",
            b"\xFF\xFF\xFF\xFF\x10",
            b"\x80\x80\x80\x80\x7F",
            b"\x80\x80\x80\x80\x80",
            b"\x80\x80\x80\x80\x80\x00",
            // cut
            b"",
            b"\x80",
            b"\x80\x80",
            b"\x80\x80\x80",
            b"\x80\x80\x80\x80",
        ],
    )
}

fn s32s(out: Unminded) -> io::Result<()> {
    reads::<S32>(
        out,
        &[
            // whole
            b"\x3F",
            b"\x40",
            b"\x7F",
            b"\xC0\x00",
            b"\xFF\xFF\xFF\xFF\x07",
            b"\x80\x80\x80\x80\x78",
            b"\xFF\xFF\xFF\xFF\x7F",
            // refused
            b"\xFF\xFF\xFF\xFF\x08",
            b"\xFF\xFF\xFF\xFF\x0F",
            b"\x80\x80\x80\x80\x77",
            b"\xFF\xFF\xFF\xFF\xFF",
            b"\xFF\xFF\xFF\xFF\xFF\x00",
            // cut
            b"\xFF\xFF\xFF\xFF",
        ],
    )
}

fn s64s(out: Unminded) -> io::Result<()> {
    reads::<S64>(
        out,
        &[
            // whole
            b"\x7F",
            b"\xFF\xFF\xFF\xFF\x0F",
            b"\x80\x80\x80\x80\x80\x80\x80\x80\x80\x00",
            b"\xFF\xFF\xFF\xFF\xFF\xFF\xFF\xFF\xFF\x00",
            b"\x80\x80\x80\x80\x80\x80\x80\x80\x80\x7F",
            b"\xFF\xFF\xFF\xFF\xFF\xFF\xFF\xFF\xFF\x7F",
            // refused
            b"\x80\x80\x80\x80\x80\x80\x80\x80\x80\x01",
            b"\xFF\xFF\xFF\xFF\xFF\xFF\xFF\xFF\xFF\x7E",
            b"\x80\x80\x80\x80\x80\x80\x80\x80\x80\x80",
            b"\x80\x80\x80\x80\x80\x80\x80\x80\x80\x80\x00",
            // cut
            b"\x80\x80\x80\x80\x80\x80\x80\x80\x80",
        ],
    )
}

// What stands before a number and after it does not matter; a place past the end is SHORT.
fn places(out: Unminded) -> io::Result<()> {
    read::<U32>(out, b"\xFF\xFF\x05\xFF", 2)?;
    read::<U32>(out, b"\x00\x80\x80\x80\x80\x10\x00", 1)?;
    read::<U32>(out, b"\x00\x00\x80", 2)?;
    read::<S64>(out, b"\x00\x00\x00", 3)?;
    read::<S64>(out, b"\x00\x00\x00", usize::MAX)
}

// Each into six bytes of EE: the place after the number, or 24, and the six bytes.
fn writes(out: Unminded) -> io::Result<()> {
    write(out, 1, U32(142))?;
    write(out, 1, U32(4294967295))?;
    write(out, 2, U32(4294967295))?;
    write(out, 4, S32(4294967232))?;
    write(out, 0, S32(64))?;
    write(out, 0, S32(2147483648))?;
    write(out, 0, S64(9223372036854775808))?;
    write(out, 5, S64(18446744073709551615))?;
    write(out, 6, U32(0))?;
    write(out, usize::MAX, U32(0))
}

fn lengths(out: Unminded) -> io::Result<()> {
    for len in [
        leb128::len(U32(127)),
        leb128::len(U32(128)),
        leb128::len(U32(4294967295)),
        leb128::len(S32(63)),
        leb128::len(S32(64)),
        leb128::len(S32(2147483648)),
        leb128::len(S64(9223372036854775808)),
    ] {
        print!(out; "{len} ")?;
    }
    println!(out; "")
}
