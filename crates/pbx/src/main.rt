//! The program `pbx`: says which priority of a dialplan answers a call, and runs calls through it.
#![tactic(auto)]

use dp_cli::answer;
use dp_conf::Told;
use dp_program::{PbxFault, print_fault};
use std::io::ErrorKind;
use std::process::ExitCode;
use std::sync::Wait;
use std::thread::Threads;
use std::{env, io};

/// Does what the command line asks for. A word that is not UTF-8 is a mistake in it.
fn run_program<R: Threads + Wait + Sync>(threads: &R, rt: &HostRuntime) -> Result<u8, PbxFault> {
    let words: Vec<String> = match env::args(rt) {
        Ok(words) => words.collect(rt.alloc())?,
        Err(error) if error.kind() == ErrorKind::OutOfMemory => return Err(PbxFault::NoMemory),
        Err(_) => {
            let _ = eprintln!(rt; "error: a word of the command line is not UTF-8");
            return Ok(2);
        }
    };
    let mut input = Told::new(rt.reader());
    let mut output = Told::new(io::writer(rt));
    Ok(answer(
        threads,
        rt,
        rt.alloc(),
        &words,
        &mut input,
        &mut output,
        &mut Told::new(rt.stderr()),
    ))
}

fn main(rt: HostRuntime) -> ExitCode {
    match run_program(&rt, &rt) {
        Ok(status) => ExitCode::from(status),
        Err(fault) => {
            let _ = print_fault(&mut Told::new(rt.stderr()), fault);
            ExitCode::from(1)
        }
    }
}
