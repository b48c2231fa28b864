//! The program: reads a command line, asks the libraries, prints the answer.
#![tactic(auto)]

mod accounts;
mod amounts;
mod calls;
mod command;
mod demo;
mod fault;
mod help;
mod lines;
mod notice;
mod request;
mod steps;
#[cfg(test)]
mod tests;

use command::answer;
use fault::Fault;
use std::env;
use std::process::ExitCode;

// A failure is said on standard error, in words, and by the exit status alone.
fn main(rt: HostRuntime) -> ExitCode {
    match run(&rt) {
        Ok(()) => ExitCode::SUCCESS,
        Err(fault) => {
            let _ = eprintln!(rt; "sorchuqe: {fault}");
            ExitCode::FAILURE
        }
    }
}

fn run(rt: &HostRuntime) -> Result<(), Fault> {
    let given: Vec<String> = env::args(rt)?.skip(1).collect(rt.alloc())?;
    let words: Vec<&str> = given.iter().map(String::as_str).collect(rt.alloc())?;
    rt.print(answer(rt.alloc(), &words)?)?;
    Ok(())
}
