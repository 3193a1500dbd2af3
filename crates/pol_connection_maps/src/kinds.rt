//! Ends by kind: the same is told of the connections of all ends of a kind.
ghost use Rattle.std.specs.Prelude.{◌≡◌, IfOk, IfSome, map};
ghost use Rattle.std.specs.List.{AllByRecursion};
ghost use Rattle.pol_connection_maps.specs.Stays.{StateMaps};
ghost use Rattle.pol_connection_maps.specs.Telling.{AreOfKinds, FindsKind, IsOfKind, ends_in};

use crate::told::Tells;
use pol_data::Memory;
use std::alloc::Global;
use std::collections::BTreeMap;
use std::marker::Model;

/// An end, with the place of its kind. A contract sees the two.
#[derive(Drop)]
pub(crate) struct OfKind<'a, E> {
    end: &'a E,
    kind: usize,
}

impl<'a, E> Model for OfKind<'a, E> {
    ghost use Rattle.std.specs.Prelude.{ℕ};

    ghost Value = { E × ℕ };

    ghost view = { λ one. (one.end.now, one.kind) };
}

impl<'a, E> OfKind<'a, E> {
    /// An end, with the place of its kind.
    fn new(end: &'a E, kind: usize) -> OfKind<'a, E>
        ensures { result ≡ (end.now, kind) }
    {
        OfKind { end, kind }
    }

    /// The end.
    pub(crate) fn end(&self) -> &'a E
        ensures { result.now ≡ self.now.0 }
    {
        self.end
    }

    /// The place of the first end of its kind among those.
    pub(crate) fn kind(&self) -> usize
        ensures { result ≡ self.now.1 }
    {
        self.kind
    }
}

/// Ends by kind.
#[derive(Drop)]
pub(crate) struct Kinds<'a, E> {
    /// The first end of each kind.
    pub(crate) firsts: Vec<&'a E>,
    /// All ends, in their order.
    pub(crate) ends: Vec<OfKind<'a, E>>,
}

/// The place of the first end of this end's kind, if its key leads to one that is alike.
fn known_kind<E: Tells>(places: &BTreeMap<E::Key, usize>, firsts: &[&E], end: &E) -> Option<usize>
    ensures { IfSome result (λ kind.
        (maps : StateMaps) → AllByRecursion (E.stands maps) (map (λ first. first.now) firsts.now)
        → E.stands maps end.now → IsOfKind E.telling (map (λ first. first.now) firsts.now) end.now kind) }
{
    let kind = *places.get(&end.key())?;
    let first = firsts.get(kind)?;
    if first.is_alike(end) {
        Some(kind)
    } else {
        None
    }
}

/// The place of the first end of this end's kind, which it is itself where none is known.
fn kind_of<'a, E: Tells>(
    places: &mut BTreeMap<E::Key, usize>,
    firsts: &mut Vec<&'a E>,
    end: &'a E,
) -> Result<usize, Memory>
    ensures { IfOk result (λ kind. (maps : StateMaps) → AllByRecursion (E.stands maps) (map (λ first.
        first.now) firsts.old.items) → E.stands maps end.now → FindsKind E.telling (E.stands maps) (map (λ first.
        first.now) firsts.old.items) (map (λ first. first.now) firsts.new.items) end.now kind) }
{
    if let Some(kind) = known_kind(places, firsts, end) {
        return Ok(kind);
    }
    let kind = firsts.len();
    firsts.push(end)?;
    places.insert(end.key(), kind)?;
    Ok(kind)
}

/// The ends by kind.
pub(crate) fn kinds_of<'a, E: Tells>(alloc: Global, ends: &'a [E]) -> Result<Kinds<'a, E>, Memory>
    ensures ends { IfOk result (λ kinds. ends_in kinds.ends.items ≡ ends.now) }
    ensures kinds { IfOk result (λ kinds. (maps : StateMaps) → AllByRecursion (E.stands maps) ends.now
        → AreOfKinds E.telling (map (λ first. first.now) kinds.firsts.items) kinds.ends.items) }
{
    let mut places = BTreeMap::new(alloc);
    let mut firsts = Vec::new(alloc);
    let mut of_kinds = Vec::new(alloc);
    for end in ends {
        let kind = kind_of(&mut places, &mut firsts, end)?;
        of_kinds.push(OfKind::new(end, kind))?;
    }
    Ok(Kinds {
        firsts,
        ends: of_kinds,
    })
}
