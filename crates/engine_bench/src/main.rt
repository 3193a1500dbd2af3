//! Times identities, the distiller, the selector cache and works that follow changes, or what a word names
//! of them: `ident`, `distill`, `cache` or `delta`. The figures go to standard error.
#![tactic(auto)]

mod cache;
mod delta;
mod distill;
mod filter;
mod holder;
mod ident;
mod watch;

use crate::watch::Watch;
use anyhow::{Result, bail};
use std::rt::Clock;
use std::time::Instant;
use std::{env, io};

/// The first word behind the program's name.
fn word_of(rt: &HostRuntime) -> io::Result<Option<String>> {
    Ok(env::args(rt)?.nth(1))
}

/// Times what the word names.
fn time_one<R: Clock + Eprint + AllocGlobal>(rt: &R, watch: Watch, word: &str) -> Result<()> {
    match word {
        "ident" => ident::time(rt, watch),
        "distill" => distill::time(rt, watch),
        "cache" => cache::time(rt, watch),
        "delta" => delta::time(rt, watch),
        _ => bail!("engine_bench times no {word}"),
    }
}

fn time_all<R: Clock + Eprint + AllocGlobal>(rt: &R, watch: Watch) -> Result<()> {
    ident::time(rt, watch)?;
    distill::time(rt, watch)?;
    cache::time(rt, watch)?;
    delta::time(rt, watch)
}

fn main(rt: HostRuntime) -> Result<()> {
    let watch = Watch::since(Instant::now(&rt)?);
    match word_of(&rt)? {
        Some(word) => time_one(&rt, watch, word.as_str()),
        None => time_all(&rt, watch),
    }
}
