//! `sag`: the top call over the files and streams of the machine.
#![tactic(auto)]

use sag_edge::{RealFiles, Sink, StdSink};
use sag_engine::{Status, sag_run};
use sag_texts::{Fault, write_fault};
use std::env;
use std::io::ErrorKind;
use std::process::ExitCode;

// Tells that memory ran out before there were words.
fn end_without_words<E: Sink>(err: &mut E) -> ExitCode {
    let _ = write_fault(err, &Fault::NoMemory);
    ExitCode::from(Status::Memory.number())
}

fn main(rt: HostRuntime) -> ExitCode {
    let mut err = StdSink::new(rt.stderr());
    let mut words = Vec::new(rt.alloc());
    match env::args(&rt) {
        Ok(args) => {
            for word in args {
                if words.push(word).is_err() {
                    return end_without_words(&mut err);
                }
            }
        }
        Err(error) if error.kind() == ErrorKind::OutOfMemory => {
            return end_without_words(&mut err);
        }
        // A word that is no text is no word of a command: without words, the usage is told.
        Err(_) => {}
    }
    let mut files = RealFiles::new(rt);
    let mut out = StdSink::new(rt.stdout());
    let status = sag_run(rt.alloc(), &words, &mut files, &mut out, &mut err);
    ExitCode::from(status.number())
}
