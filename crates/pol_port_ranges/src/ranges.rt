//! Ranges are made.
ghost use Rattle.std.specs.Prelude.{◌≡◌, ◌++◌, ◌∷◌, ℕ, List, IfOk, OnOk, length, map};
ghost use Rattle.pol_port_ranges.specs.declared.said.PortSaid.{PortSaid as OneSaid};
ghost use Rattle.pol_port_ranges.specs.Ranges.{ranges};
ghost use Rattle.pol_port_ranges.specs.Walk.{IsSteady, piece, walk};

use crate::said::{PortSaid, Range};
use pol_data::Memory;
use std::alloc::Global;

/// Appends the range of these ports, where it is told.
fn push_piece(out: &mut Vec<Range>, first: u16, last: u16, said: PortSaid) -> Result<(), Memory>
    ensures { OnOk result (out.new.items ≡ out.old.items ++ piece first last said) }
{
    if said.is_told() {
        out.push(Range { first, last, said })?;
    }
    Ok(())
}

/// Appends the ranges from port 0 on, where this is said at these ports, and something else may be said only there.
fn push_said(out: &mut Vec<Range>, ports: &[u16], words: &[PortSaid]) -> Result<(), Memory>
    requires first { (rest : List ℕ) × (ports.now ≡ 0 ∷ rest) }
    requires words { length words.now ≡ length ports.now }
    ensures { OnOk result ((said : ℕ → OneSaid)
        → words.now ≡ map said ports.now → out.new.items ≡ out.old.items ++ walk said 0 ports.now) }
{
    let mut first = 0u16;
    let mut said = words[0];
    for i in 0..ports.len() {
        let port = ports[i];
        let next = words[i];
        if !said.is_same(&next) {
            push_piece(out, first, port.saturating_sub(1), said)?;
            first = port;
            said = next;
        }
    }
    push_piece(out, first, 65535, said)
}

/// The ranges of what is said of each port, where this is said at these ports, of which the first is 0, and nothing changes
/// between one of them and the next. The one error is want of memory.
pub fn ranges_of(alloc: Global, ports: &[u16], words: &[PortSaid]) -> Result<Vec<Range>, Memory>
    requires first { (rest : List ℕ) × (ports.now ≡ 0 ∷ rest) }
    requires words { length words.now ≡ length ports.now }
    ensures { IfOk result (λ made. (said : ℕ → OneSaid) (rest : List ℕ)
        → ports.now ≡ 0 ∷ rest → words.now ≡ map said ports.now → IsSteady said 0 rest → made.items ≡ ranges said) }
{
    let mut out = Vec::new(alloc);
    push_said(&mut out, ports, words)?;
    Ok(out)
}
