//! When a call of a source or a sink in memory fails.
ghost use Rattle.std.specs.Prelude.{◌≡◌, ◌+◌, ◌↔◌, IsTrue, Contains};
ghost use Rattle.pol_streams.specs.Faults.{next_count};

// Whether the call that comes after these fails.
pub(crate) fn is_failing(fails: &Vec<u64>, calls: u64) -> bool
    ensures { IsTrue result ↔ Contains fails.now.items (calls + 1) }
{
    match calls.checked_add(1) {
        Some(number) => fails.contains(&number),
        None => false,
    }
}

// One more, as far as a `u64` goes.
pub(crate) fn raised(count: u64) -> u64
    ensures { result ≡ next_count count }
{
    count.saturating_add(1)
}
