// Strips checked and run.
use cases::{Case, Fields, Left, UNTOUCHED, fill, memory_room};
use hexadecimal::Unminded;
use std::io;

// Of arguments and of results no more are lent, whatever a line says.
const ARGS: usize = 512;

const RESULTS: usize = 128;

// What a run is given beside the strip: the arguments, and the fields that say how many bytes of memory and of results.
#[derive(Clone, Copy)]
struct Given<'a> {
    args: &'a [u8],
    lengths: Fields<'a>,
}

// check NAME STRIP
pub(crate) fn check(case: &Case) -> io::Result<()> {
    let out = Unminded(case.rt);
    let answer = strip::check(&case.strip);
    out.write_all(case.name)?;
    println!(out; " {} {} {}", answer.code, answer.place, answer.steps)
}

// run NAME STRIP ARGUMENTS MEMORY RESULTS BUDGET
pub(crate) fn run(case: &Case, line: Fields) -> io::Result<()> {
    let mut room = [0; ARGS];
    let given = given_in(line, &mut room);
    run_at(case, given, budget_after(given.lengths))
}

// budgets NAME STRIP ARGUMENTS MEMORY RESULTS LAST: run at every budget from 0 to the last.
pub(crate) fn budgets(case: &Case, line: Fields) -> io::Result<()> {
    let mut room = [0; ARGS];
    let given = given_in(line, &mut room);
    for budget in 0..=budget_after(given.lengths) {
        run_at(case, given, budget)?;
    }
    Ok(())
}

fn given_in<'a>(mut line: Fields<'a>, room: &'a mut [u8]) -> Given<'a> {
    let len = line.bytes(room);
    Given {
        args: &room[..len],
        lengths: line,
    }
}

fn budget_after(mut lengths: Fields) -> u32 {
    lengths.word();
    lengths.word();
    lengths.number()
}

fn run_at(case: &Case, given: Given, budget: u32) -> io::Result<()> {
    let out = Unminded(case.rt);
    let Given { args, mut lengths } = given;
    let mut memory = memory_room();
    let memory_len = lengths.length(&memory);
    let mut results = [UNTOUCHED; RESULTS];
    let results_len = lengths.length(&results);
    let memory = &mut memory[..memory_len];
    let results = &mut results[..results_len];
    fill(memory);
    let answer = strip::run_once(&case.strip, args, memory, results, budget);
    let left = Left {
        answer,
        results,
        memory,
    };
    out.write_all(case.name)?;
    println!(out; " {budget} {left}")
}
