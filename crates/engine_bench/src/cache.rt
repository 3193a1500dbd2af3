//! Times what an identity costs that comes and goes while selectors are live: few or many that ask for other values or
//! prefixes, or some that all take it; and what a selector costs that goes and comes again while others are live.

mod asked;
mod selectors;
mod turns;

ghost use Rattle.std.specs.Prelude.{◌≡◌};
ghost use Rattle.pol_set_changes.specs.Log.{newest};
ghost use Rattle.pol_selcache.specs.Live.{AreExact};

use crate::cache::asked::{Ask, holder_for};
use crate::cache::selectors::{add_all, time_oldest};
use crate::cache::turns::rounds;
use crate::watch::Watch;
use anyhow::Result;
use pol_data::Steps;
use pol_ident::Identities;
use pol_selcache::SelectorCache;
use std::marker::Brand;
use std::rt::Clock;
use std::sync::ledger::{Blank, Ledger};

/// What comes and goes.
#[derive(Clone, Copy)]
enum WhatMoves {
    Identity,
    Selector,
}

/// Makes so many selectors live, and times what moves.
fn time_all<R: Clock + AllocGlobal, L: Ledger>(
    rt: &R,
    watch: Watch,
    cache: &mut SelectorCache,
    identities: &mut Identities,
    moves: WhatMoves,
    ask: Ask,
    count: u32,
    steps: &mut Steps<L>,
) -> Result<Option<(u128, u128)>>
    requires newest { newest cache.old.log ≡ 0 }
    requires exact { AreExact identities.old cache.old.live }
{
    add_all(rt.alloc(), cache, identities, ask, count, steps)?;
    match moves {
        WhatMoves::Selector => Ok(Some(time_oldest(rt, watch, cache, identities, ask, steps)?)),
        WhatMoves::Identity => {
            let holder = holder_for(rt.alloc(), ask)?;
            Ok(rounds(rt, watch, cache, identities, &holder, steps))
        }
    }
}

/// The same from an empty cache.
fn time_over<R: Clock + AllocGlobal, L: Ledger>(
    rt: &R,
    watch: Watch,
    blank: Blank,
    moves: WhatMoves,
    ask: Ask,
    count: u32,
) -> Result<Option<(u128, u128)>>
    requires name { blank.name ≡ L.name }
    requires parts { blank.parts ≡ L.parts }
    requires some { blank.parts ≡ 1 }
{
    let mut steps = Steps::<L>::new(blank);
    let mut identities = Identities::new(rt.alloc())?;
    let mut cache = SelectorCache::new(rt.alloc());
    time_all(
        rt,
        watch,
        &mut cache,
        &mut identities,
        moves,
        ask,
        count,
        &mut steps,
    )
}

fn measure<R: Clock + Eprint + AllocGlobal>(
    rt: &R,
    watch: Watch,
    what: &str,
    moves: WhatMoves,
    ask: Ask,
    count: u32,
) -> Result<()> {
    match time_over::<R, Brand>(rt, watch, Blank::new(1), moves, ask, count)? {
        Some((coming, going)) => eprintln!(rt;
            "{count:>6} selectors, {what:<48} comes in {coming:>6} ns, goes in {going:>6} ns"
        )?,
        None => eprintln!(rt; "{count:>6} selectors, {what:<48} no figure")?,
    }
    Ok(())
}

/// Identities that come and go.
fn of_identities<R: Clock + Eprint + AllocGlobal>(rt: &R, watch: Watch) -> Result<()> {
    let one = "an identity that one takes";
    let all = "an identity that all take";
    let none_filed = "the same, where none is filed under a value";
    let prefix = "an identity of a prefix that one takes";
    measure(rt, watch, one, WhatMoves::Identity, Ask::OwnValue, 10)?;
    measure(rt, watch, one, WhatMoves::Identity, Ask::OwnValue, 1_000)?;
    measure(rt, watch, one, WhatMoves::Identity, Ask::OwnValue, 10_000)?;
    measure(rt, watch, all, WhatMoves::Identity, Ask::SameValue, 1_000)?;
    measure(
        rt,
        watch,
        none_filed,
        WhatMoves::Identity,
        Ask::NoValue,
        1_000,
    )?;
    measure(
        rt,
        watch,
        prefix,
        WhatMoves::Identity,
        Ask::OwnPrefix,
        1_000,
    )?;
    measure(
        rt,
        watch,
        prefix,
        WhatMoves::Identity,
        Ask::OwnPrefix,
        10_000,
    )
}

/// Selectors that go and come again.
fn of_selectors<R: Clock + Eprint + AllocGlobal>(rt: &R, watch: Watch) -> Result<()> {
    let value = "the oldest, of a value";
    let prefix = "the oldest, of a prefix";
    measure(rt, watch, value, WhatMoves::Selector, Ask::OwnValue, 1_000)?;
    measure(rt, watch, value, WhatMoves::Selector, Ask::OwnValue, 10_000)?;
    measure(
        rt,
        watch,
        prefix,
        WhatMoves::Selector,
        Ask::OwnPrefix,
        1_000,
    )?;
    measure(
        rt,
        watch,
        prefix,
        WhatMoves::Selector,
        Ask::OwnPrefix,
        10_000,
    )
}

/// Times both.
pub(crate) fn time<R: Clock + Eprint + AllocGlobal>(rt: &R, watch: Watch) -> Result<()> {
    of_identities(rt, watch)?;
    of_selectors(rt, watch)
}
