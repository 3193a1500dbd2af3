//! The peers that filters list, by reference.
ghost use Rattle.std.specs.Prelude.{◌≡◌, ◌++◌, IfOk, OnOk, map};
ghost use Rattle.pol_taken.specs.PeerRows.{filter_peers, list_peers};

use pol_data::Memory;
use pol_filters::{Filter, Filters};
use pol_rule::{Peer, push_listed};
use std::alloc::Global;

fn push_filters<'a>(out: &mut Vec<&'a Peer>, filters: &'a [Filter]) -> Result<(), Memory>
    ensures { OnOk result (map (λ p. p.now) out.new.items ≡ map (λ p. p.now) out.old.items ++ list_peers filters.now) }
{
    for filter in filters {
        push_listed(out, &filter.peers)?;
    }
    Ok(())
}

/// The peers that the filters list, each as often as it stands there.
pub(crate) fn listed_peers<'a>(alloc: Global, filters: &'a Filters) -> Result<Vec<&'a Peer>, Memory>
    ensures { IfOk result (λ listed. map (λ p. p.now) listed.items ≡ filter_peers filters.now) }
{
    let mut listed = Vec::new(alloc);
    push_filters(&mut listed, filters.ingress.as_slice())?;
    push_filters(&mut listed, filters.egress.as_slice())?;
    Ok(listed)
}
