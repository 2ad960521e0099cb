// The program: a strip from standard input, run with no arguments; what comes of it on standard output (document 01, "Numbers on the inspector's
// card").
#![tactic(auto)]

mod answer;
mod ascii;

use anyhow::{Context, Result};
use std::process::ExitCode;

// What fails is said on standard error, and is a status of 1.
fn main(rt: HostRuntime) -> ExitCode {
    match answered(&rt) {
        Ok(()) => ExitCode::SUCCESS,
        Err(failure) => {
            let _ = eprintln!(rt; "gevurlat: {failure}");
            ExitCode::FAILURE
        }
    }
}

fn answered(rt: &HostRuntime) -> Result<()> {
    let mut strip = [0; input::ENOUGH];
    let n = input::read_all(&mut rt.stdin(), &mut strip).context("cannot read standard input")?;
    let mut out = [0; answer::LONGEST];
    let len = answer::answer(&strip[..n], &mut out);
    rt.write_all(&out[..len])
        .context("cannot write standard output")
}
