// Strips rewritten and listed.
ghost use Rattle.std.specs.Prelude.{◌≡◌, length};

use cases::{Case, Fields, UNTOUCHED};
use hexadecimal::{Hex, Unminded};
use std::io;

// Of a rewriting's output no more is lent, whatever a line says.
const SHORTENED: usize = 1024;

// Every listing that is to be printed has room here; one that comes to 256 values has over a hundred thousand bytes.
const LISTING: usize = 262144;

fn listing_room() -> [u8; LISTING]
    ensures { 262144 ≡ length result }
{
    [UNTOUCHED; LISTING]
}

// shorten NAME STRIP OUTPUT
pub(crate) fn shorten(case: &Case, mut line: Fields) -> io::Result<()> {
    let out = Unminded(case.rt);
    let mut room = [UNTOUCHED; SHORTENED];
    let len = line.length(&room);
    let output = &mut room[..len];
    let w = strip::rewrite(&case.strip, output);
    out.write_all(case.name)?;
    print!(out; " {} {} {}", w.code, w.place, w.len)?;
    if !output.is_empty() {
        print!(out; " {}", Hex(output))?;
    }
    println!(out; "")
}

// list NAME STRIP OUTPUT OVER: the line ends with `touched` if a byte beyond the listing is not as it was; then the listing's own lines, but
// for the bytes that are passed over; none are, if OVER is left out.
pub(crate) fn list(case: &Case, mut line: Fields) -> io::Result<()> {
    let out = Unminded(case.rt);
    let mut room = listing_room();
    let len = line.length(&room);
    let output = &mut room[..len];
    let w = strip::list(&case.strip, output);
    let (listing, beyond) = output.split_at(w.len.min(len));
    let touched = if kept(beyond) { "" } else { " touched" };
    out.write_all(case.name)?;
    println!(out; " {} {} {}{touched}", w.code, w.place, w.len)?;
    let over = line.number() as usize;
    out.write_all(listing.get(over..).unwrap_or(&[]))
}

// rooms NAME STRIP LAST: listed with every room from 0 bytes to the last, a line each.
pub(crate) fn rooms(case: &Case, mut line: Fields) -> io::Result<()> {
    let mut whole = listing_room();
    strip::list(&case.strip, &mut whole);
    for room in 0..=line.number() {
        listed_in(case, room, &whole)?;
    }
    Ok(())
}

fn listed_in(case: &Case, room: u32, whole: &[u8]) -> io::Result<()> {
    let out = Unminded(case.rt);
    let mut most = listing_room();
    let len = LISTING.min(room as usize);
    let output = &mut most[..len];
    let w = strip::list(&case.strip, output);
    let held = held(output, whole, w.len);
    out.write_all(case.name)?;
    println!(out; " {room} {} {} {} {held}", w.code, w.place, w.len)
}

// What the output holds: `kept` is all as it was, `whole` the listing and beyond it all as it was.
fn held(out: &[u8], whole: &[u8], len: usize) -> &'static str {
    let (listing, beyond) = out.split_at(len.min(out.len()));
    if kept(out) {
        "kept"
    } else if kept(beyond) && listing == &whole[..len.min(whole.len())] {
        "whole"
    } else {
        "other"
    }
}

fn kept(bytes: &[u8]) -> bool {
    bytes.iter().all(|byte| *byte == UNTOUCHED)
}
