// A strip checked and run, and the answers compared with what the case's line says.
ghost use Rattle.std.specs.Prelude.{◌≤◌};

use crate::expected::{Expected, UNTOUCHED};
use card::Answer;
use hexadecimal::Hex;
use std::fmt;

// More than any strip of the texts has instructions.
const BUDGET: u32 = 1000000;

// What the check answered and the strip's byte at that place, what the run did, and the results after it.
#[derive(Clone, Copy)]
pub(crate) struct Outcome {
    verdict: Answer,
    named: Option<u8>,
    answer: Answer,
    results: [u8; 64],
}

impl Outcome {
    pub(crate) fn of(strip: &[u8], args: &[u8], memory: &mut [u8]) -> Outcome {
        let mut results = UNTOUCHED;
        let verdict = strip::check(strip);
        let lent = &mut results[..results_len(strip)];
        let answer = strip::run_once(strip, args, memory, lent, BUDGET);
        Outcome {
            verdict,
            named: strip.get(verdict.place).copied(),
            answer,
            results,
        }
    }

    pub(crate) fn is(&self, expected: &Expected) -> bool {
        match expected {
            Expected::Results(results) => {
                done(self.verdict) && done(self.answer) && self.results == *results
            }
            Expected::Trap => {
                done(self.verdict) && self.answer.code == card::TRAP && self.results == UNTOUCHED
            }
            Expected::Refusal(None) => false,
            Expected::Refusal(Some(reason)) => {
                reason.is_told(self.verdict.code, self.named)
                    && self.verdict == self.answer
                    && self.results == UNTOUCHED
            }
        }
    }
}

// Sixteen bytes for each result that the header declares.
fn results_len(strip: &[u8]) -> usize
    ensures { result ≤ 64 }
{
    match strip.get(7) {
        Some(count) if *count <= 4 => 16 * *count as usize,
        _ => 0,
    }
}

fn done(answer: Answer) -> bool {
    answer.code == card::DONE && answer.place == 0
}

impl fmt::Display for Outcome {
    fn fmt<W: fmt::Write>(&self, f: &mut fmt::Formatter<W>) -> fmt::Result {
        let check = self.verdict;
        let run = self.answer;
        writeln!(
            f,
            "    check {} {} {}",
            check.code, check.place, check.steps
        )?;
        writeln!(f, "    run {} {} {}", run.code, run.place, run.steps)?;
        writeln!(f, "    results {}", Hex(&self.results))
    }
}
