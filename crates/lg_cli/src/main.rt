//! The program `lg`: a SWIM failure detector with Lifeguard's extensions, on a command line.
#![tactic(auto)]

mod ask;
mod ending;
mod explain;
mod node;
mod output;
mod program;
mod replay;
mod version;

use node::Owned;
use output::Output;
use std::env::Env;
use std::process::ExitCode;
use std::{env, io};

fn main(rt: HostRuntime) -> ExitCode {
    let mut output = Output::new(rt, rt.stdout());
    let status = match words_of(&rt) {
        Ok(words) => program::run_words(
            &rt,
            words.as_slice(),
            Owned {
                input: rt.stdin(),
                output: rt.stdout(),
            },
            &mut rt.stdin(),
            &mut output,
            &mut rt.stderr(),
        ),
        Err(error) => program::refuse_words(&error, &mut rt.stderr()),
    };
    let status = ending::exit_status(status, output.is_cut(), &mut rt.stderr());
    ExitCode::from(status)
}

/// The words of the command line. The first word is the program's name.
fn words_of(rt: &(impl Env + AllocGlobal)) -> io::Result<Vec<String>> {
    let words = env::args(rt)?.collect(rt.alloc())?;
    Ok(words)
}
