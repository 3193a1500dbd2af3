//! Reading the parts of a list, each of one kind.
ghost use Rattle.std.specs.Prelude.{◌≡◌, ◌++◌, filter_map, IfOk, OnOk};
ghost use Rattle.std.specs.List.{list_any};
ghost use Rattle.pol_sanitize.specs.Answers.{Finds};
ghost use Rattle.pol_sanitize.specs.Faults.{found, located};

use crate::SanitizeError;
use crate::fault::Location;
use pol_rule::PolicyKey;
use std::alloc::Global;

/// A kind of part, and how one is read.
pub(crate) trait PartKind {
    ghost use Rattle.std.specs.Prelude.{Bool, Option};
    ghost use Rattle.pol_rule.specs.declared.cause.RuleCause.{RuleCause};
    ghost use Rattle.pol_rule.specs.declared.policy.PolicyKey.{PolicyKey};

    /// A part as it was written.
    type Raw;

    /// What a part says.
    type Part: Drop;

    /// What a part that is bad is refused for.
    ghost cause: { RuleCause };

    /// Whether a part is bad.
    ghost bad: { Self.Raw → Bool };

    /// What a part says in a policy of this key, and none where it is left out.
    ghost part: { PolicyKey → Self.Raw → Option Self.Part };

    /// What the part says.
    fn read(
        alloc: Global,
        key: &PolicyKey,
        location: Location,
        raw: &Self::Raw,
    ) -> Result<Option<Self::Part>, SanitizeError>
        ensures fault { Finds (located location (found cause (bad raw.now))) result }
        ensures part { IfOk result (λ said. said ≡ part key.now raw.now) };
}

/// Appends what each part of a list says. After an error some of them may have been appended.
pub(crate) fn push_each<K: PartKind>(
    alloc: Global,
    key: &PolicyKey,
    location: Location,
    raws: &[K::Raw],
    parts: &mut Vec<K::Part>,
) -> Result<(), SanitizeError>
    ensures fault { Finds (located location (found K.cause (list_any K.bad raws.now))) result }
    ensures parts { OnOk result (parts.new.items ≡ parts.old.items ++ filter_map (K.part key.now) raws.now) }
{
    for raw in raws {
        if let Some(part) = K::read(alloc, key, location, raw)? {
            parts.push(part)?;
        }
    }
    Ok(())
}
