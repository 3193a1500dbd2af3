//! Times prefix tables, policy maps and audits, or what a word names of them: `lpm`, `trie` or `audit`. The figures go to
//! standard error.
#![tactic(auto)]

mod audit;
mod lpm;
mod trie;
mod watch;

use crate::watch::Watch;
use anyhow::{Result, bail};
use std::rt::Clock;
use std::time::Instant;
use std::{env, io};

/// The first word behind the program's name.
fn word_of(rt: &HostRuntime) -> io::Result<Option<String>> {
    Ok(env::args(rt)?.nth(1))
}

/// Times what the word names.
fn time_one<R: Clock + Eprint + AllocGlobal>(rt: &R, watch: Watch, word: &str) -> Result<()> {
    match word {
        "lpm" => lpm::time(rt, watch),
        "trie" => trie::time(rt, watch),
        "audit" => audit::time(rt, watch),
        _ => bail!("library_bench times no {word}"),
    }
}

fn time_all<R: Clock + Eprint + AllocGlobal>(rt: &R, watch: Watch) -> Result<()> {
    lpm::time(rt, watch)?;
    trie::time(rt, watch)?;
    audit::time(rt, watch)
}

fn main(rt: HostRuntime) -> Result<()> {
    let watch = Watch::since(Instant::now(&rt)?);
    match word_of(&rt)? {
        Some(word) => time_one(&rt, watch, word.as_str()),
        None => time_all(&rt, watch),
    }
}
