//! `policyd` reads a script from standard input, one JSON object a line, and writes one answer a line to
//! standard output.
//!
//! `play` does all of it over any source and sink: `source` reads a script and answers it, `generate` writes the summary of
//! one that is made, `map` the map that a script leaves an endpoint with, `audit` how two tables differ, and `crash` what a
//! crash leaves of the requests of a script. The lines are played by `pol_play_lines`. What `play` promises is stated in its
//! contract, over the definitions of `pol_run`.
#![tactic(auto)]

ghost use Rattle.std.specs.Prelude.{◌≡◌};
ghost use Rattle.std.specs.IoError.{error_kind};
ghost use Rattle.policyd.specs.Ends.{status_without_words};

mod audit;
mod crash;
#[cfg(test)]
mod gates;
mod generate;
mod laws;
mod map;
mod play;
mod played;
mod source;
mod status;
#[cfg(test)]
mod tests;
mod text;

use play::play;
use pol_streams::{IoSink, IoSource};
use status::Status;
use std::process::ExitCode;
use std::{env, io};

// The words behind the program's name.
fn words_of(rt: &HostRuntime) -> io::Result<Vec<String>> {
    let mut words = Vec::new(rt.alloc());
    for word in env::args(rt)?.skip(1) {
        words.push(word)?;
    }
    Ok(words)
}

// Words that can't be read are a faulty command line, unless memory ran out.
fn status_without_words(error: &io::Error) -> Status
    ensures { result ≡ status_without_words (error_kind error.now) }
{
    match error.kind() {
        io::ErrorKind::OutOfMemory => Status::Memory,
        _ => Status::Usage,
    }
}

fn main(rt: HostRuntime) -> ExitCode {
    let status = match words_of(&rt) {
        Ok(words) => {
            let mut source = IoSource::new(rt.stdin());
            let mut sink = IoSink::new(rt.stdout());
            play(&rt, rt.alloc(), words.as_slice(), &mut source, &mut sink).status
        }
        Err(error) => status_without_words(&error),
    };
    if let Some(complaint) = status.complaint() {
        let _ = eprintln!(rt; "{complaint}");
    }
    status.code()
}
