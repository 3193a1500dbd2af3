//! Where selectors and identities are filed, so that few of the ones are tried for one of the others.
//!
//! A `Heading` is a condition on identities. A selector is filed under one heading, under which all identities that it
//! selects stand; an identity is filed under all headings under which it stands and that may be a selector's (`Headings`).
//! A `Filing` gives the numbers that are filed under headings.
#![tactic(auto)]

mod drawers;
mod filing;
mod heading;
mod heading_of;
mod heading_ref;
mod headings;
pub mod laws;

pub use filing::Filing;
pub use heading::Heading;
pub use heading_ref::HeadingRef;
pub use headings::Headings;
