//! Each call that takes memory once, with ample memory, and a count of steps at a ledger.
ghost use Rattle.std.specs.Prelude.{◌≡◌};

use pol_data::{Items, Memory, Steps, Text, Texts, TryCopy};
use std::alloc::Global;
use std::marker::Brand;
use std::sync::ledger::{Blank, Ledger};
use std::test::Fail;

/// A list of one text.
fn listed(alloc: Global, text: &str) -> Result<Texts, Memory> {
    Items::one(alloc, Text::from_str(alloc, text)?)
}

#[test]
fn lists_and_texts_are_copied(rt: HostRuntime) -> Result<(), Fail> {
    let alloc = rt.alloc();
    let list = listed(alloc, "k8s")?;
    let copy = list.copy(alloc)?;
    assert!(rt; copy == list && !copy.is_empty());
    assert!(rt; matches!(copy.as_slice(), [text] if text.as_str() == "k8s"));
    assert!(rt; list.as_slice()[0].copy(alloc)? != Text::empty(alloc));
    Ok(())
}

#[test]
fn options_are_copied(rt: HostRuntime) -> Result<(), Fail> {
    assert!(rt; Some(4u64).try_copy(rt.alloc())? == Some(4));
    Ok(())
}

/// Counts two steps.
fn count<L: Ledger>(blank: Blank)
    requires name { blank.name ≡ L.name }
    requires parts { blank.parts ≡ L.parts }
    requires some { blank.parts ≡ 1 }
{
    let mut steps = Steps::<L>::new(blank);
    steps.tick();
    steps.tick();
}

#[test]
fn steps_are_counted() {
    count::<Brand>(Blank::new(1));
}
