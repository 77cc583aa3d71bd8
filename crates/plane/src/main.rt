//! `plane`: carries a command out over the real devices of the process and a kernel that is a
//! model.
#![tactic(auto)]

mod devices;
mod folders;

use devices::run;
use plane_main::{lack_memory, places};
use plane_real::StdSink;
use std::io::ErrorKind;
use std::process::ExitCode;
use std::rt::Env;
use std::{env, io};

// The words of the command line, without the name of the program.
fn words(rt: &(impl Env + AllocGlobal)) -> io::Result<Vec<String>> {
    let mut words = Vec::new(rt.alloc());
    for word in env::args(rt)?.skip(1) {
        words.push(word)?;
    }
    Ok(words)
}

fn main(rt: HostRuntime) -> ExitCode {
    let alloc = rt.alloc();
    let mut err = StdSink::new(rt.stderr());
    let words = match words(&rt) {
        Ok(words) => words,
        Err(error) if error.kind() == ErrorKind::OutOfMemory => {
            return ExitCode::from(lack_memory(&mut err));
        }
        // Words that are no text are those of no command.
        Err(_) => Vec::new(alloc),
    };
    let status = match places(alloc, &words) {
        Ok(places) => run(&rt, alloc, &words, places.as_ref(), &mut err),
        Err(_) => lack_memory(&mut err),
    };
    ExitCode::from(status)
}
