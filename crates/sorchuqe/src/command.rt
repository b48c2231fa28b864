//! Which command is meant, and its answer.
use crate::fault::{Fault, usage};
use crate::notice::notice;
use crate::{demo, help, request};
use std::alloc::Global;
use terms::figures::worked_figures;

const HELP: &str = "--help";

/// What the program prints for the words of its command line.
pub(crate) fn answer(heap: Global, words: &[&str]) -> Result<String, Fault> {
    match words {
        [] => usage(heap, HELP, "a command is missing"),
        ["--help" | "-h" | "help", ..] => Ok(String::from_str(heap, help::PROGRAM)?),
        ["--version", ..] => version(heap),
        ["adjust", rest @ ..] if asks_for_help(rest) => Ok(String::from_str(heap, help::ADJUST)?),
        ["adjust", rest @ ..] => notice(heap, &request::read(heap, rest)?),
        ["demo"] => demo::story(heap),
        ["demo", rest @ ..] if asks_for_help(rest) => Ok(String::from_str(heap, help::DEMO)?),
        ["demo", ..] => usage(heap, HELP, "demo takes no arguments"),
        [other, ..] => usage(heap, HELP, format_args!("there is no command '{other}'")),
    }
}

fn version(heap: Global) -> Result<String, Fault> {
    let figures = worked_figures();
    Ok(format!(in heap; "sorchuqe 0.1.0, checked against {figures} worked figures\n")?)
}

fn asks_for_help(words: &[&str]) -> bool {
    words.iter().any(|word| *word == "--help" || *word == "-h")
}
