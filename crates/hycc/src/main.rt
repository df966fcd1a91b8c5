//! The program: the words of the command line, the operating system's files and standard output, and the exit status.
//! What it does is `hycc_top`'s `hycc`.
#![tactic(auto)]

use hy_io::{RealFiles, RealSink};
use hycc_top::{Status, hycc};
use std::process::ExitCode;
use std::{env, io};

fn main(rt: HostRuntime) -> ExitCode {
    let alloc = rt.alloc();
    let status = match words(&rt) {
        Ok(words) => hycc(
            alloc,
            &words,
            &mut RealFiles::new(rt),
            &mut RealSink::new(rt),
        ),
        Err(status) => status,
    };
    ExitCode::from(status.code)
}

/// The words of the command line. Words that are no text are no words of a command.
fn words(rt: &HostRuntime) -> Result<Vec<String>, Status> {
    let alloc = rt.alloc();
    match env::args(rt) {
        Ok(args) => args.collect(alloc).map_err(|_| WANT_OF_MEMORY),
        Err(error) if error.kind() == io::ErrorKind::OutOfMemory => Err(WANT_OF_MEMORY),
        Err(_) => Ok(Vec::new(alloc)),
    }
}

/// Memory ran out before there were words.
const WANT_OF_MEMORY: Status = Status { code: 10 };
