//! The program `ce`: it runs the script on standard input, and writes the report to standard
//! output.
#![tactic(auto)]

use ce_gate::OpenGate;
use ce_io::{StdSink, StdSource};
use ce_run::run_command;
use std::env::Env;
use std::process::ExitCode;
use std::{env, io};

fn main(rt: HostRuntime) -> ExitCode {
    let mut source = StdSource::new(rt.stdin());
    let mut sink = StdSink::new(rt.stdout());
    let mut errors = StdSink::new(rt.stderr());
    let status = run_command(
        &rt,
        rt.alloc(),
        words_of(&rt),
        &mut source,
        &mut sink,
        &mut errors,
        &OpenGate,
    );
    ExitCode::from(status)
}

/// The words of the command line behind the program's name.
fn words_of<R: Env + AllocGlobal>(rt: &R) -> io::Result<Vec<String>> {
    let mut words = Vec::new(rt.alloc());
    for word in env::args(rt)?.skip(1) {
        words.push(word)?;
    }
    Ok(words)
}
