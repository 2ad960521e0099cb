// What the test programs show: bytes as text, two lowercase hexadecimal digits each, byte 0 first; and where they show it.
#![tactic(auto)]

use std::{fmt, io};

// Standard output's number, as POSIX has it.
pub const STDOUT_FILENO: i32 = 1;

#[derive(Clone, Copy)]
pub struct Hex<'a>(pub &'a [u8]);

impl<'a> fmt::Display for Hex<'a> {
    fn fmt<W: fmt::Write>(&self, f: &mut fmt::Formatter<W>) -> fmt::Result {
        for byte in self.0 {
            write!(f, "{byte:02x}")?;
        }
        Ok(())
    }
}

// Standard output, where nobody minds what it does not take: a test program goes on, and ends as it would have.
#[derive(Clone, Copy)]
pub struct Unminded<'a>(pub &'a HostRuntime);

impl<'a> Print for Unminded<'a> {
    fn print<D: fmt::Display + Drop>(&self, value: D) -> io::Result<()> {
        let _ = self.0.print(value);
        Ok(())
    }

    fn println<D: fmt::Display + Drop>(&self, value: D) -> io::Result<()> {
        let _ = self.0.println(value);
        Ok(())
    }

    fn write_all(&self, bytes: &[u8]) -> io::Result<()> {
        let _ = self.0.write_all(bytes);
        Ok(())
    }
}
