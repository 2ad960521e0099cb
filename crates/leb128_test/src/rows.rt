// What is printed of a number read or written, a line each.
use hexadecimal::{Hex, Unminded};
use leb128::{Format, NoNumber};
use std::io;

// At the start of each.
pub(crate) fn reads<F: Format>(out: Unminded, numbers: &[&[u8]]) -> io::Result<()> {
    for bytes in numbers {
        read::<F>(out, bytes, 0)?;
    }
    Ok(())
}

// Code, place, value, bytes.
pub(crate) fn read<F: Format>(out: Unminded, bytes: &[u8], at: usize) -> io::Result<()> {
    match leb128::read::<F>(bytes, at) {
        Ok(number) => println!(out; "{} 0 {} {}", card::DONE, number.value, number.len),
        Err(NoNumber::Short) => println!(out; "{} {} 0 0", card::SHORT, bytes.len()),
        Err(NoNumber::Wrong) => println!(out; "{} {at} 0 0", card::NUMBER),
    }
}

pub(crate) fn write<F: Format>(out: Unminded, at: usize, number: F) -> io::Result<()> {
    let mut six = [0xEE; 6];
    match leb128::write(&mut six, at, number) {
        Some(next) => print!(out; "{next} ")?,
        None => print!(out; "{} ", card::SMALL)?,
    }
    println!(out; "{}", Hex(&six))
}
