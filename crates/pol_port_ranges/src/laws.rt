//! Laws of ranges. Each function does nothing: its contract is the law.
ghost use Rattle.std.specs.Prelude.{◌≡◌, ◌<◌, ◌↔◌, ◌∷◌, [], ℕ, List, None, true, false};
ghost use Rattle.pol_port_ranges.specs.declared.said.Range.{Range as OneRange};
ghost use Rattle.pol_port_ranges.specs.declared.said.PortSaid.{PortSaid as OneSaid};
ghost use Rattle.pol_port_ranges.specs.declared.said.Halves.{Halves as OneHalves};
ghost use Rattle.pol_port_ranges.specs.Examples.{all_open, all_open_but_2, all_open_but_2_by_halves, alone, barred, by_halves, change, open_halves, open_but_2, port_2_shuts, shut_otherwise, unasked};
ghost use Rattle.pol_port_ranges.specs.Ranges.{AreApart, all_ports, range, ranges, ranges_from, said_at};
ghost use Rattle.pol_port_ranges.specs.Said.{changes, told};

/// The ranges say of each port what is told of it, and of no other number anything. They ascend and are apart, and none could be
/// joined with the next.
pub fn ranges_tell_each_port()
    ensures ports { (said : ℕ → OneSaid) (port : ℕ) → port < all_ports → said_at (ranges said) port ≡ told (said port) }
    ensures others { (said : ℕ → OneSaid) (port : ℕ) → (port < all_ports → ⊥) → said_at (ranges said) port ≡ None }
    ensures apart { (said : ℕ → OneSaid) → AreApart (ranges said) }
{}

/// Lists of ranges that are apart say the same of every port only where they are one list. So what is told of ports has one list
/// of ranges, and a list of ranges tells one thing.
pub fn ranges_are_a_normal_form()
    ensures lists { (xs ys : List OneRange)
        → AreApart xs → AreApart ys → ((port : ℕ) → said_at xs port ≡ said_at ys port) → xs ≡ ys }
    ensures ports { (f g : ℕ → OneSaid) → (ranges f ≡ ranges g)
        ↔ ((port : ℕ) → port < all_ports → told (f port) ≡ told (g port)) }
{}

/// Where a connection opens or shuts, a half has another word: so what is told of connections is told of halves too.
pub fn a_connection_changes_by_a_half()
    ensures { (before after : OneHalves) → changes false before after ≡ true → changes true before after ≡ true }
{}

/// Ranges of the ports 0 to 3, written out: a deny of one port; ranges that touch, of which other words are said; a port that
/// stays shut between two ranges, and the same where halves are told; ports that stay shut, of which some have another word; and
/// the open ports of a state alone.
pub fn ranges_written_out()
    ensures denied { ranges_from 4 0 port_2_shuts ≡ range 2 2 (change open_halves barred) ∷ [] }
    ensures touch { ranges_from 4 0 all_open
        ≡ range 0 1 (change barred open_halves) ∷ range 2 3 (change unasked open_halves) ∷ [] }
    ensures hole { ranges_from 4 0 all_open_but_2
        ≡ range 0 1 (change unasked open_halves) ∷ range 3 3 (change unasked open_halves) ∷ [] }
    ensures halves { ranges_from 4 0 all_open_but_2_by_halves ≡ range 0 1 (by_halves unasked open_halves)
        ∷ range 2 2 (by_halves unasked barred) ∷ range 3 3 (by_halves unasked open_halves) ∷ [] }
    ensures shut { ranges_from 4 0 shut_otherwise ≡ range 2 3 (by_halves barred unasked) ∷ [] }
    ensures alone { ranges_from 4 0 open_but_2 ≡ range 0 1 (alone open_halves) ∷ range 3 3 (alone open_halves) ∷ [] }
{}
