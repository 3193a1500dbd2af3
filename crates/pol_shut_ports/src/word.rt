//! What ranges of shut ports say of a port.
ghost use Rattle.std.specs.Prelude.{◌≡◌};
ghost use Rattle.pol_shut_ports.specs.Shut.{shuts, word_in};

use pol_audit::Difference;
use pol_mapkey::Word;

/// Whether the range has the port.
fn shuts(range: &Difference, port: u16) -> bool
    ensures { result ≡ shuts range.now port }
{
    range.first <= port && port <= range.last
}

/// What the ranges say of a port: what the first says that has it, and that it is allowed where none has it.
pub fn word_at(ranges: &[Difference], port: u16) -> Word
    ensures { result ≡ word_in ranges.now port }
{
    for range in ranges {
        if shuts(range, port) {
            return range.right;
        }
    }
    Word::Allowed
}
