// Strips rewritten; stdout has what documents 01 and 02 say of each, worked out by hand. Each row: code, place, length, the output, which was all EE.
#![tactic(auto)]

ghost use Rattle.std.specs.Prelude.{◌≤◌};

use hexadecimal::{Hex, Unminded};
use std::io;

// The largest room that a strip is rewritten into.
const LARGEST: usize = 32;

// It ends well, whatever standard output takes.
fn main(rt: HostRuntime) {
    let _ = strips(Unminded(&rt));
}

fn strips(out: Unminded) -> io::Result<()> {
    shortened(out)?;
    room(out)?;
    refusals(out)?;
    blocks(out)?;
    block_refusals(out)
}

fn shortened(out: Unminded) -> io::Result<()> {
    rows(
        out,
        32,
        &[
            // document 01's whole strip, which is shortest as it is
            b"WGP\x01\x00\x00\x00\x01\x7B\xFD\x0C\x00\x01\x02\x03\x04\x05\x06\x07\x08\x09\x0A\x0B\x0C\x0D\x0E\x0F\x0B",
            // the same with the number after FD in five bytes
            b"WGP\x01\x00\x00\x00\x01\x7B\xFD\x8C\x80\x80\x80\x00\x00\x01\x02\x03\x04\x05\x06\x07\x08\x09\x0A\x0B\x0C\x0D\x0E\x0F\x0B",
            // i32.const 1, i64.const -1
            b"WGP\x01\x00\x00\x00\x01\x7F\x41\x81\x80\x80\x80\x00\x0B",
            b"WGP\x01\x00\x00\x00\x01\x7E\x42\xFF\xFF\xFF\xFF\xFF\xFF\xFF\xFF\xFF\x7F\x0B",
            // local.get 0, v128.load of exponent 4 and offset 0
            b"WGP\x01\x00\x01\x00\x01\x7F\x7B\x20\x80\x00\xFD\x00\x84\x00\x80\x80\x00\x0B",
        ],
    )
}

// Twelve bytes fit into twelve.
fn room(out: Unminded) -> io::Result<()> {
    rows(
        out,
        12,
        &[b"WGP\x01\x00\x00\x00\x01\x7F\x41\x81\x80\x80\x80\x00\x0B"],
    )?;
    rows(
        out,
        11,
        &[
            b"WGP\x01\x00\x00\x00\x01\x7F\x41\x81\x80\x80\x80\x00\x0B",
            b"WGP\x01\x00\x00\x00\x01\x7F\x41\x01\x0B",
        ],
    )
}

// Asked before the room: an empty file, no `end`, a byte after it, bits that s32 does not have.
fn refusals(out: Unminded) -> io::Result<()> {
    rows(
        out,
        12,
        &[
            b"",
            b"WGP\x01\x00\x00\x00\x01\x7F\x41\x81\x80\x80\x80\x00",
            b"WGP\x01\x00\x00\x00\x01\x7F\x41\x81\x80\x80\x80\x00\x0B\x00",
        ],
    )?;
    rows(
        out,
        11,
        &[b"WGP\x01\x00\x00\x00\x01\x7F\x41\x81\x80\x80\x80\x10\x0B"],
    )
}

// Version 2: labels are numbers, a block type is a byte.
fn blocks(out: Unminded) -> io::Result<()> {
    rows(
        out,
        32,
        &[
            // block, br 0 with its label in five bytes, end, end
            b"WGP\x02\x00\x00\x00\x00\x02\x40\x0C\x80\x80\x80\x80\x00\x0B\x0B",
            // loop of one v128: 7B is no number, and stays; the number after FD takes two bytes
            b"WGP\x02\x00\x00\x00\x01\x7B\x03\x7B\xFD\x8C\x00\x00\x01\x02\x03\x04\x05\x06\x07\x08\x09\x0A\x0B\x0C\x0D\x0E\x0F\x0B\x0B",
            // block of one i32, i32.const 1, i32.const 0, i32.eqz, br_if 1, end, end
            b"WGP\x02\x00\x00\x00\x01\x7F\x02\x7F\x41\x81\x00\x41\x80\x00\x45\x0D\x81\x80\x00\x0B\x0B",
            // i32.const 5, br 0, i32.lt_u in dead code, end
            b"WGP\x02\x00\x00\x00\x01\x7F\x41\x85\x00\x0C\x80\x00\x49\x0B",
        ],
    )?;
    rows(
        out,
        12,
        &[
            // twelve bytes, into twelve and into eleven
            b"WGP\x02\x00\x00\x00\x00\x02\x40\x0B\x0B",
        ],
    )?;
    rows(out, 11, &[b"WGP\x02\x00\x00\x00\x00\x02\x40\x0B\x0B"])
}

// A padded label one too far, a block type that is none, a block without its `end`, and version 1, which has no blocks.
fn block_refusals(out: Unminded) -> io::Result<()> {
    rows(
        out,
        12,
        &[
            b"WGP\x02\x00\x00\x00\x00\x0C\x81\x00\x0B",
            b"WGP\x02\x00\x00\x00\x00\x02\x00\x0B\x0B",
            b"WGP\x02\x00\x00\x00\x00\x02\x40\x0B",
            b"WGP\x01\x00\x00\x00\x00\x02\x40\x0B\x0B",
        ],
    )
}

// Each strip into as much room.
fn rows(out: Unminded, room: usize, strips: &[&[u8]]) -> io::Result<()>
    requires { room ≤ LARGEST }
{
    for strip in strips {
        let mut bytes = [0xEE; LARGEST];
        let written = &mut bytes[..room];
        let r = rewrite::rewrite(strip, written);
        println!(out; "{} {} {} {}", r.code, r.place, r.len, Hex(written))?;
    }
    Ok(())
}
