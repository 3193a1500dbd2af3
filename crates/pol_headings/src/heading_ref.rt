//! Headings by reference.
ghost use Rattle.std.specs.Prelude.{◌≡◌, IfOk};
ghost use Rattle.pol_headings.specs.Heading.{heading_by, same_heading};

use crate::Heading;
use indexmap::Equivalent;
use pol_addr::Prefix;
use pol_data::{Memory, Text};
use std::alloc::Global;

/// A heading whose texts stand elsewhere, so that it takes no memory. Contracts see the heading by `heading_by`.
#[derive(Clone, Copy, Debug, PartialEq, Eq, Hash)]
pub enum HeadingRef<'a> {
    /// Identities with a label of this key and this value, whatever its source.
    Label { key: &'a str, value: &'a str },
    /// Identities whose prefix lies in this one.
    Prefix(Prefix),
    /// All identities.
    Any,
}

/// Whether the reference is one to this heading.
fn refers_to(by: &HeadingRef<'_>, heading: &Heading) -> bool
    ensures { result ≡ same_heading (heading_by by.now) heading.now }
{
    match (by, heading) {
        (
            HeadingRef::Label { key, value },
            Heading::Label {
                key: own,
                value: of,
            },
        ) => { *key == own.as_str() && *value == of.as_str() }
        (HeadingRef::Prefix(prefix), Heading::Prefix(own)) => *prefix == *own,
        (HeadingRef::Any, Heading::Any) => true,
        _ => false,
    }
}

impl<'a> HeadingRef<'a> {
    /// The reference to a heading.
    pub fn of_heading(heading: &'a Heading) -> HeadingRef<'a>
        ensures { heading_by result ≡ heading.now }
    {
        match heading {
            Heading::Label { key, value } => HeadingRef::Label {
                key: key.as_str(),
                value: value.as_str(),
            },
            Heading::Prefix(prefix) => HeadingRef::Prefix(*prefix),
            Heading::Any => HeadingRef::Any,
        }
    }

    /// The heading itself, in memory of its own. The one error is want of memory.
    pub fn to_heading(&self, alloc: Global) -> Result<Heading, Memory>
        ensures equal { IfOk result (λ heading. heading ≡ heading_by self.now) }
    {
        match self {
            HeadingRef::Label { key, value } => Ok(Heading::Label {
                key: Text::from_str(alloc, *key)?,
                value: Text::from_str(alloc, *value)?,
            }),
            HeadingRef::Prefix(prefix) => Ok(Heading::Prefix(*prefix)),
            HeadingRef::Any => Ok(Heading::Any),
        }
    }
}

/// A look-up by reference finds the heading that is referred to.
impl<'a, 'b> Equivalent<Heading> for &'b HeadingRef<'a> {
    ghost use Rattle.pol_headings.specs.RefLaws.{found_alike, hashed_alike};

    ghost equivalent = { λ by. same_heading (heading_by by.now) };

    ghost respects_hash = { λ by. hashed_alike by.now };

    ghost respects_eq = { λ by. found_alike by.now };

    fn equivalent(&self, key: &Heading) -> bool {
        refers_to(*self, key)
    }
}
