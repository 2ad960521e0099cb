// What is printed of a case, a line each.
use hexadecimal::{Hex, Unminded};
use instr::{Instr, decode, encode, fetch, scan};
use std::io;

// What stands in a room before an instruction is encoded into it.
pub(crate) const UNTOUCHED: u8 = 0xEE;

// Three lines; answers how long the instruction is.
pub(crate) fn decoded(out: Unminded, version: u16, bytes: &[u8], at: usize) -> io::Result<usize> {
    let d = decode(version, bytes, at);
    let i = d.instr;
    print!(out;
        "{} {} {} {} {} ",
        d.code, d.place, d.len, i.first, i.number
    )?;
    print!(out;
        "{} {} {} {} {} ",
        i.index, i.word, i.long, i.align, i.offset
    )?;
    println!(out; "{} {} {}", i.lane, i.block, Hex(&i.bytes))?;
    encoded(out, &mut [UNTOUCHED; 24], version, i)?;
    let s = scan(version, bytes, at);
    let id = fetch(version, bytes, at).id;
    print!(out; "{} {} {} {} ", s.code, s.place, s.len, s.immediate)?;
    println!(out; "{} {id} ", s.entry / 0x1_0000_0000)?;
    Ok(d.len)
}

// Into that room.
pub(crate) fn encoded(out: Unminded, room: &mut [u8], version: u16, i: Instr) -> io::Result<()> {
    let e = encode(version, i, room);
    println!(out; "{} {} {} {}", e.code, e.place, e.len, Hex(room))
}
