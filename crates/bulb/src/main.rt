//! The program: it makes the real source and sink, calls the library and ends with its status.
#![tactic(auto)]

use lb_ports::{OpenGate, StdSink, StdSource};
use lb_system::{Fault, bulb};
use std::env;
use std::io::ErrorKind;
use std::process::ExitCode;

/// The status where the runtime refuses the words for another cause, as one that isn't UTF-8. No call answers it.
const NO_WORDS: u8 = 11;

fn main(rt: HostRuntime) -> ExitCode {
    let args = match env::args(&rt) {
        Ok(args) => args,
        Err(error) if error.kind() == ErrorKind::OutOfMemory => return no_memory(),
        Err(_) => return ExitCode::from(NO_WORDS),
    };
    let Ok(words) = args.collect::<Vec<String>>(rt.alloc()) else {
        return no_memory();
    };
    let mut input = StdSource::new(rt.stdin());
    let mut output = StdSink::new(rt.stdout());
    let ended = bulb(&rt, rt.alloc(), &words, &mut input, &mut output, &OpenGate);
    ExitCode::from(ended.status)
}

// The status where no memory is left for the words.
fn no_memory() -> ExitCode {
    ExitCode::from(Fault::Memory.status())
}
