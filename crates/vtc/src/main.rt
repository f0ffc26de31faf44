//! The program `vtc`: the words, files and standard output of the real system for `vt_top::run`.
#![tactic(auto)]

use std::process::ExitCode;
use std::rt::Env;
use std::{env, io};
use vt_io::{HostFiles, HostSink};
use vt_top::{Status, run};

/// The status with which the program ends where its words cannot be had.
const NO_WORDS: u8 = 7;

fn main(rt: HostRuntime) -> ExitCode {
    match words(&rt) {
        Ok(words) => {
            let mut files = HostFiles::new(&rt);
            let mut sink = HostSink::new(&rt);
            ExitCode::from(run(rt.alloc(), &words, &mut files, &mut sink).number())
        }
        Err(error) if error.kind() == io::ErrorKind::OutOfMemory => {
            ExitCode::from(Status::NoMemory.number())
        }
        Err(_) => ExitCode::from(NO_WORDS),
    }
}

// The words after the name of the program.
fn words<R: Env + AllocGlobal>(rt: &R) -> io::Result<Vec<String>> {
    let words = env::args(rt)?.skip(1).collect(rt.alloc())?;
    Ok(words)
}
