//! A program for tests: answers a file of questions about random plans and exchanges of routes, which its one word names. See `answers_of`.
#![tactic(auto)]

use batch_run::{Files, Folder, Sink, StandardOutput};
use exchange_answers::answers_of;
use std::env;
use std::process::ExitCode;

/// The longest file of questions.
const LARGEST_FILE: u64 = 64 << 20;

/// The first word behind the program's own name.
fn first_word(rt: &HostRuntime) -> Option<String> {
    match env::args(rt) {
        Ok(args) => args.skip(1).next(),
        Err(_) => None,
    }
}

fn main(rt: HostRuntime) -> ExitCode {
    let Some(name) = first_word(&rt) else {
        return ExitCode::FAILURE;
    };
    let mut files = Folder::new(rt.alloc(), &rt);
    let Ok(questions) = files.load(name.as_str(), LARGEST_FILE) else {
        return ExitCode::FAILURE;
    };
    let Ok(answers) = answers_of(&rt, rt.alloc(), questions.as_slice(), &mut files) else {
        return ExitCode::FAILURE;
    };
    let mut out = StandardOutput::new(rt.stdout());
    match out.put(answers.as_bytes()) {
        Ok(()) => ExitCode::SUCCESS,
        Err(_) => ExitCode::FAILURE,
    }
}
