//! The program: makes the real files and streams, and calls the solver's command.
#![tactic(auto)]

use batch_run::{Folder, StandardError, StandardOutput};
use problem_data::NoMemory;
use pyvrp::NO_MEMORY;
use pyvrp_program::run_program;
use std::env;
use std::io::ErrorKind;
use std::process::ExitCode;

/// The words without the program's own name; none where one of them isn't text.
fn words_of(rt: &HostRuntime) -> Result<Vec<String>, NoMemory> {
    let mut words = Vec::new(rt.alloc());
    match env::args(rt) {
        Ok(args) => {
            for word in args.skip(1) {
                words.push(word)?;
            }
            Ok(words)
        }
        Err(error) => {
            if error.kind() == ErrorKind::OutOfMemory {
                return Err(NoMemory);
            }
            Ok(words)
        }
    }
}

fn main(rt: HostRuntime) -> ExitCode {
    let Ok(words) = words_of(&rt) else {
        return ExitCode::from(NO_MEMORY);
    };
    let mut files = Folder::new(rt.alloc(), &rt);
    let mut out = StandardOutput::new(rt.stdout());
    let mut err = StandardError::new(rt.stderr());
    ExitCode::from(run_program(&rt, rt.alloc(), words, &mut files, &mut out, &mut err))
}
