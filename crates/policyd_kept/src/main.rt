//! `policyd_kept FILE [WORD ..]` reads a script from standard input and answers each line as it comes, over a journal in a file: what
//! was acknowledged is there when it is started again on the same file.
//!
//! `run` does all of it over any source and sink: it reads the words and opens the file, and `serve` answers the lines over any disk.
//! What `serve` promises is stated in its contract, over the definitions of `pol_play_kept`.
#![tactic(auto)]

ghost use Rattle.std.specs.Prelude.{◌≡◌};
ghost use Rattle.std.specs.IoError.{error_kind};
ghost use Rattle.policyd_kept.specs.Ends.{end_without_words};

mod course;
mod end;
mod laws;
mod line;
mod piece;
mod run;
mod serve;

use end::FileEnd;
use pol_status::Status;
use pol_streams::{IoSink, IoSource};
use run::run;
use std::process::ExitCode;
use std::{env, io};

// The words behind the program's name.
fn words_of(rt: &HostRuntime) -> io::Result<Vec<String>> {
    let mut words = Vec::new(rt.alloc());
    for word in env::args(rt)?.skip(1) {
        words.push(word)?;
    }
    Ok(words)
}

// Words that can't be read are a faulty command line, unless memory ran out.
fn end_without_words(error: &io::Error) -> FileEnd
    ensures { result ≡ end_without_words (error_kind error.now) }
{
    match error.kind() {
        io::ErrorKind::OutOfMemory => FileEnd::Served(Status::Memory),
        _ => FileEnd::Served(Status::Usage),
    }
}

fn main(rt: HostRuntime) -> ExitCode {
    let end = match words_of(&rt) {
        Ok(words) => {
            let mut source = IoSource::new(rt.stdin());
            let mut sink = IoSink::new(rt.stdout());
            run(&rt, rt.alloc(), words.as_slice(), &mut source, &mut sink)
        }
        Err(error) => end_without_words(&error),
    };
    if let Some(complaint) = end.complaint() {
        let _ = eprintln!(rt; "{complaint}");
    }
    end.code()
}
