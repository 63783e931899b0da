//! The program: it hands the words, the standard streams, a clock and a gate to the top call, and ends with its status.
#![tactic(auto)]

use conc_top::{OUT_OF_MEMORY, run};
use hs_io::retried::RetriedReads;
use hs_io::{HostClock, OpenGate, Sink, StdSink, StdSource};
use std::alloc::AllocError;
use std::env;
use std::io::ErrorKind;
use std::process::ExitCode;

// The status of want of memory.
const MEMORY: u8 = 6;

fn main(rt: HostRuntime) -> ExitCode {
    let mut err = StdSink::new(rt.stderr());
    let Ok(words) = words_of(&rt) else {
        // The status says it too, where the line can't be written.
        let _ = err.put(OUT_OF_MEMORY.as_bytes());
        return ExitCode::from(MEMORY);
    };
    let mut source = StdSource::new(RetriedReads::new(rt.stdin()));
    let out = StdSink::new(rt.stdout());
    let clock = HostClock::new(&rt);
    let done = run(
        rt.alloc(),
        &rt,
        &words,
        &mut source,
        out,
        err,
        clock,
        &OpenGate,
    );
    ExitCode::from(done.status)
}

// The words after the program's name. Words that are not all text are no good words, as no words are none.
fn words_of(rt: &HostRuntime) -> Result<Vec<String>, AllocError> {
    match env::args(rt) {
        Ok(args) => args.skip(1).collect(rt.alloc()),
        Err(error) => match error.kind() {
            ErrorKind::OutOfMemory => Err(AllocError),
            _ => Ok(Vec::new(rt.alloc())),
        },
    }
}
