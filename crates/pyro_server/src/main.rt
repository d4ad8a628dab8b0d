//! A continuous profiling server: pushes of profiles in, flame graphs and lists out.
#![tactic(auto)]

mod ending;
mod laws;
mod outcome;
mod session;
mod settle;
mod status;
#[cfg(test)]
mod tests;
mod words;

pub use ending::Ending;
pub use laws::{
    account_of_pushes, all_input_is_answered, defined_or_excused, one_history,
    served_at_later_histories, tenants_are_apart,
};
use link_trait::StdioLink;
pub use outcome::{Outcome, run};
pub use session::{Ended, run_session};
pub use status::ExitStatus;
use std::alloc::Global;
use std::process::ExitCode;
use std::{env, io, mem};

fn main(rt: HostRuntime) -> ExitCode {
    let words = match words_of(&rt) {
        Ok(words) => words,
        Err(error) if error.kind() == io::ErrorKind::OutOfMemory => {
            return ExitCode::from(ExitStatus::NoMemory.code());
        }
        Err(_) => return ExitCode::from(ExitStatus::NoCommand.code()),
    };
    let alloc = rt.alloc();
    let stdio = StdioLink::new(rt);
    let outcome = run(alloc, &words, (), stdio, (), (), &());
    // The system takes the memory back with the process: to let go of each stack before would only delay the end.
    mem::forget(outcome.history);
    ExitCode::from(outcome.status.code())
}

// The words after the program's name.
fn words_of(rt: &HostRuntime) -> io::Result<Vec<String>> {
    let mut words = Vec::new(rt.alloc());
    for word in env::args(rt)?.skip(1) {
        words.push(word)?;
    }
    Ok(words)
}
