//! The program: the files and streams of the system, and the top call.
//!
//! It promises what `ra_top` does of what its adapters hand it. Begin with `main`.
#![tactic(auto)]

mod adapters;

use adapters::{HostFiles, HostSink};
use ra_top::{Status, top};
use std::alloc::{AllocError, Global};
use std::env;
use std::io::ErrorKind;
use std::process::ExitCode;
use watchers::{CountWatcher, PressureWatcher, TraceWatcher, Watcher};

fn main(rt: HostRuntime) -> ExitCode {
    let status = match words(&rt) {
        Ok(words) => run(&rt, words.as_slice()),
        Err(ErrorKind::OutOfMemory) => Status::Memory,
        // words that are no text are refused as other words are
        Err(_) => run(&rt, &[]),
    };
    ExitCode::from(status.code())
}

fn run(rt: &HostRuntime, words: &[String]) -> Status {
    match run_watched(rt, words) {
        Ok(status) => status,
        Err(_) => Status::Memory,
    }
}

/// Runs with the watchers whose lines `trace` writes: of the steps, of their counts, and of the
/// registers that were given. Err where no memory is found for these.
fn run_watched(rt: &HostRuntime, words: &[String]) -> Result<Status, AllocError> {
    let alloc: Global = rt.alloc();
    let mut watchers: Vec<Box<dyn Watcher>> = Vec::new(alloc);
    watchers.push(Box::new(alloc, TraceWatcher::new(alloc))?)?;
    watchers.push(Box::new(alloc, CountWatcher::new())?)?;
    watchers.push(Box::new(alloc, PressureWatcher::new(alloc))?)?;
    let mut files = HostFiles::new(rt);
    let mut out = HostSink::new(rt.stdout());
    let mut err = HostSink::new(rt.stderr());
    Ok(top(alloc, words, &mut files, &mut out, &mut err, &mut watchers))
}

/// The words after the program's name.
fn words(rt: &HostRuntime) -> Result<Vec<String>, ErrorKind> {
    let mut all = match env::args(rt) {
        Ok(all) => all,
        Err(e) => return Err(e.kind()),
    };
    let _program = all.next();
    let alloc: Global = rt.alloc();
    let mut words = Vec::new(alloc);
    for word in all {
        if words.push(word).is_err() {
            return Err(ErrorKind::OutOfMemory);
        }
    }
    Ok(words)
}
