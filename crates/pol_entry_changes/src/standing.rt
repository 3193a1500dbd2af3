//! Filters that stand where others stood.
ghost use Rattle.std.specs.Prelude.{◌≡◌, IsTrue};
ghost use Rattle.pol_entry_changes.specs.Told.{NamesOne, StandsAt};

use pol_filters::{Filter, Filters};

/// Whether both have one place and one stamp.
pub(crate) fn stands_at(one: &Filter, other: &Filter) -> bool
    ensures { IsTrue result → StandsAt one.now other.now }
{
    one.stamp == other.stamp && one.place == other.place
}

/// Whether each filter stands where the other list has one, so that none comes or goes.
fn all_stand(old: &[Filter], new: &[Filter]) -> bool
    ensures { IsTrue result → NamesOne old.now new.now → old.now ≡ new.now }
{
    if old.len() != new.len() {
        return false;
    }
    for i in 0..old.len() {
        if i >= new.len() || !stands_at(&old[i], &new[i]) {
            return false;
        }
    }
    true
}

/// Whether no filter of either direction comes or goes. Then the lists are the same, where a place and a stamp name one
/// filter.
pub fn all_filters_stand(old: &Filters, new: &Filters) -> bool
    ensures ingress { IsTrue result → NamesOne old.now.ingress new.now.ingress → old.now.ingress ≡ new.now.ingress }
    ensures egress { IsTrue result → NamesOne old.now.egress new.now.egress → old.now.egress ≡ new.now.egress }
{
    all_stand(old.ingress.as_slice(), new.ingress.as_slice())
        && all_stand(old.egress.as_slice(), new.egress.as_slice())
}
