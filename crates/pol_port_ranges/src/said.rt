//! What is said of a port.
ghost use Rattle.std.specs.Prelude.{◌≡◌};
ghost use Rattle.pol_port_ranges.specs.Said.{changes, is_allowed, is_open, is_told, same_before, same_halves, same_said};

use pol_mapkey::Word;

/// What the two ends of a connection say of it ('profile'). An end without a policy of its own allows all.
#[derive(Clone, Copy, PartialEq, Eq, Debug)]
pub struct Halves {
    /// The verdict on what the source sends.
    pub sent: Word,
    /// The verdict on what the target receives.
    pub received: Word,
}

/// What is said of a connection: in a state alone, or before and after a change ('profile').
#[derive(Clone, Copy, PartialEq, Eq, Debug)]
pub struct PortSaid {
    /// What is said before, where there is a state before.
    pub before: Option<Halves>,
    /// What is said in the one state, or after.
    pub after: Halves,
    /// Whether a change is told wherever a half has another word, and not only where the connection opens or shuts.
    pub halves: bool,
}

/// The ports from `first` to `last`, both included, of each of which the same is said.
#[derive(Clone, Copy, PartialEq, Eq, Debug)]
pub struct Range {
    /// The least port.
    pub first: u16,
    /// The greatest port, at least `first`.
    pub last: u16,
    /// What is said of each of them.
    pub said: PortSaid,
}

fn is_allowed(word: Word) -> bool
    ensures { result ≡ is_allowed word }
{
    matches!(word, Word::Allowed)
}

impl Halves {
    /// Whether the connection is open: both ends allow it.
    pub fn is_open(&self) -> bool
        ensures { result ≡ is_open self.now }
    {
        is_allowed(self.sent) && is_allowed(self.received)
    }
}

impl PortSaid {
    /// Whether it is told: the connection is open in the one state; or it opens or shuts, or where halves are told, one of them
    /// has another word.
    pub fn is_told(&self) -> bool
        ensures { result ≡ is_told self.now }
    {
        match self.before {
            None => self.after.is_open(),
            Some(before) => changes(self.halves, before, self.after),
        }
    }

    /// Whether both say the same words.
    pub fn is_same(&self, other: &PortSaid) -> bool
        ensures { result ≡ same_said self.now other.now }
    {
        self.halves == other.halves
            && same_halves(self.after, other.after)
            && same_before(self.before, other.before)
    }
}

/// Whether a change of a connection is told: a half has another word, where halves are told, or else it opens or shuts.
fn changes(halves: bool, before: Halves, after: Halves) -> bool
    ensures { result ≡ changes halves before after }
{
    if halves {
        !same_halves(before, after)
    } else {
        before.is_open() != after.is_open()
    }
}

fn same_before(one: Option<Halves>, other: Option<Halves>) -> bool
    ensures { result ≡ same_before one other }
{
    match (one, other) {
        (None, None) => true,
        (Some(a), Some(b)) => same_halves(a, b),
        _ => false,
    }
}

fn same_halves(a: Halves, b: Halves) -> bool
    ensures { result ≡ same_halves a b }
{
    a.sent == b.sent && a.received == b.received
}
