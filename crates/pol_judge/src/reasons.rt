//! The verdict on a packet with its reasons.
ghost use Rattle.std.specs.Prelude.{◌≡◌, IfOk};
ghost use Rattle.std.specs.List.{AllByRecursion};
ghost use Rattle.pol_model.specs.Enforced.{allow_section, deny_section};
ghost use Rattle.pol_model.specs.Explain.{covering_places};
ghost use Rattle.pol_model.specs.Sizes.{IsShortPolicy};
ghost use Rattle.pol_judge.specs.Parts.{covers_number, parts_of, trace_of};

use crate::judge::verdict_at;
use crate::places::places_in;
use pol_data::Memory;
use pol_ident::Identities;
use pol_model::{Endpoint, Mode, Places, Query, Stamped, Trace, allow_section, deny_section};
use std::alloc::Global;

/// The places of the deny entries that cover the query's packet.
fn deny_places(
    alloc: Global,
    policies: &[Stamped],
    identities: &Identities,
    endpoint: &Endpoint,
    number: u32,
    query: &Query,
) -> Result<Places, Memory>
    requires { AllByRecursion (λ stamped. IsShortPolicy stamped.policy) policies.now }
    ensures { IfOk result (λ places. places ≡ covering_places policies.now endpoint.now
        (deny_section query.now.dir) (covers_number identities.now query.now number)) }
{
    let section = deny_section(query.dir);
    places_in(
        alloc, policies, endpoint, section, identities, number, query,
    )
}

/// The places of the allow entries that cover it.
fn allow_places(
    alloc: Global,
    policies: &[Stamped],
    identities: &Identities,
    endpoint: &Endpoint,
    number: u32,
    query: &Query,
) -> Result<Places, Memory>
    requires { AllByRecursion (λ stamped. IsShortPolicy stamped.policy) policies.now }
    ensures { IfOk result (λ places. places ≡ covering_places policies.now endpoint.now
        (allow_section query.now.dir) (covers_number identities.now query.now number)) }
{
    let section = allow_section(query.dir);
    places_in(
        alloc, policies, endpoint, section, identities, number, query,
    )
}

/// Why the query's packet at the endpoint is allowed or denied, where its other side has the identity of that number: the
/// verdict, and the places of the deny and of the allow entries that cover it, in policy, rule and entry order, whatever
/// the mode. The one error is want of memory.
pub fn explain_at(
    alloc: Global,
    localhost: bool,
    mode: Mode,
    policies: &[Stamped],
    identities: &Identities,
    endpoint: &Endpoint,
    number: u32,
    query: &Query,
) -> Result<Trace, Memory>
    requires short { AllByRecursion (λ stamped. IsShortPolicy stamped.policy) policies.now }
    ensures trace { IfOk result (λ trace.
        trace ≡ trace_of localhost (parts_of mode policies.now identities.now) query.now endpoint.now number) }
{
    let word = verdict_at(
        localhost, mode, policies, identities, endpoint, number, query,
    );
    let denies = deny_places(alloc, policies, identities, endpoint, number, query)?;
    let allows = allow_places(alloc, policies, identities, endpoint, number, query)?;
    Ok(Trace {
        word,
        remote: number,
        denies,
        allows,
    })
}
