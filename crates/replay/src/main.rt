//! `replay`: runs the script on standard input and prints what the machine says. It makes the real
//! objects and calls `top::run`; its exit status is the run's.
#![tactic(auto)]

mod adapters;

use adapters::{HostSink, HostSource};
use rig::{MemRig, Sink};
use std::env::{self, Env};
use std::io;
use std::process::ExitCode;
use top::{Program, Status};

// The words after the program's name.
fn words(rt: &(impl Env + AllocGlobal)) -> io::Result<Vec<String>> {
    let mut words = Vec::new(rt.alloc());
    for word in env::args(rt)?.skip(1) {
        words.push(word)?;
    }
    Ok(words)
}

// The end of a run that found no memory before it began.
fn out_of_memory(out: &mut impl Sink) -> ExitCode {
    let _ = out.write(b"out of memory\n");
    ExitCode::from(Status::Memory.number())
}

fn main(rt: HostRuntime) -> ExitCode {
    let alloc = rt.alloc();
    let mut out = HostSink::new(rt.stdout());
    // A word that is no text is no word of replay, and neither is the empty one that stands for it.
    let no_text = [String::new(alloc)];
    let words = words(&rt);
    let words = match &words {
        Ok(words) => words.as_slice(),
        Err(error) if error.kind() == io::ErrorKind::OutOfMemory => return out_of_memory(&mut out),
        Err(_) => no_text.as_slice(),
    };
    let Ok(mut rig) = MemRig::new(alloc, 0) else {
        return out_of_memory(&mut out);
    };
    let mut input = HostSource::new(rt.stdin());
    let status = top::run(
        alloc,
        Program::Replay,
        words,
        &mut rig,
        &mut input,
        &mut out,
    );
    ExitCode::from(status.number())
}
