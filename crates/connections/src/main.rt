//! `connections` reads a script from standard input, or two with the line `--` between them, and writes to standard output
//! which connections are open at the end of the one, or which open and shut from the end of the first to that of the second.
//!
//! `play_connections` does all of it over any source and sink: `source` reads the input, `tell` commits the requests of each
//! script in order, and `states` writes the lists over what they leave. What it promises is stated in its contract, over the
//! definitions of `pol_connections`.
#![tactic(auto)]

ghost use Rattle.std.specs.Prelude.{◌≡◌};
ghost use Rattle.std.specs.IoError.{error_kind};
ghost use Rattle.connections.specs.Ends.{status_without_words};

mod laws;
mod play;
mod source;
mod states;
mod status;
mod tell;
#[cfg(test)]
mod tests;

use play::play_connections;
use pol_streams::{IoSink, IoSource};
use status::RunEnd;
use std::process::ExitCode;
use std::{env, io};

// The words behind the program's name.
fn words_of(rt: &HostRuntime) -> io::Result<Vec<String>> {
    let mut words = Vec::new(rt.alloc());
    for word in env::args(rt)?.skip(1) {
        words.push(word)?;
    }
    Ok(words)
}

// Words that can't be read are a faulty command line, unless memory ran out.
fn status_without_words(error: &io::Error) -> RunEnd
    ensures { result ≡ status_without_words (error_kind error.now) }
{
    match error.kind() {
        io::ErrorKind::OutOfMemory => RunEnd::Memory,
        _ => RunEnd::Usage,
    }
}

fn main(rt: HostRuntime) -> ExitCode {
    let status = match words_of(&rt) {
        Ok(words) => {
            let mut source = IoSource::new(rt.stdin());
            let mut sink = IoSink::new(rt.stdout());
            play_connections(rt.alloc(), words.as_slice(), &mut source, &mut sink)
        }
        Err(error) => status_without_words(&error),
    };
    if let Some(complaint) = status.complaint() {
        let _ = eprintln!(rt; "{complaint}");
    }
    status.code()
}
