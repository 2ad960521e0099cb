// The inspector's program: a strip from standard input; its listing on standard output, line by line, in room for one line (02, C-11).
#![tactic(auto)]

mod lines;
mod refusal;

use anyhow::{Context, Result};
use std::process::ExitCode;

// What fails is said on standard error, and is a status of 1.
fn main(rt: HostRuntime) -> ExitCode {
    match listed(&rt) {
        Ok(()) => ExitCode::SUCCESS,
        Err(failure) => {
            let _ = eprintln!(rt; "listing: {failure}");
            ExitCode::FAILURE
        }
    }
}

// The line of a refusal, or else the listing.
fn listed(rt: &HostRuntime) -> Result<()> {
    let mut strip = [0; input::ENOUGH];
    let n = input::read_all(&mut rt.stdin(), &mut strip).context("cannot read standard input")?;
    let mut out = [0; refusal::LONGEST];
    let printed = match refusal::refusal(&strip[..n], &mut out) {
        Some(len) => rt.write_all(&out[..len]),
        None => lines::print(rt, &strip[..n]),
    };
    printed.context("cannot write standard output")
}
