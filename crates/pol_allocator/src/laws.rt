//! Laws of what is held, over the definitions alone. Each function does nothing: its contract is the law.
ghost use Rattle.std.specs.Prelude.{◌≡◌, List, true};
ghost use Rattle.std.specs.List.{AllByRecursion};
ghost use Rattle.pol_addr.specs.declared.network.Prefix.{Prefix};
ghost use Rattle.pol_model.specs.declared.row.IdentityRow.{IdentityRow as OneRow};
ghost use Rattle.pol_model_laws.specs.Holding.{is_held};
ghost use Rattle.pol_model_laws.specs.Keeps.{KeepsRows};
ghost use Rattle.pol_allocator.specs.Held.{AreApart};

/// Prefixes that are held are apart from those that come with others: a number that comes is of a prefix that had no row.
/// So the prefixes of a policy that is replaced may be given up in `hold_prefixes`.
pub fn held_prefixes_are_apart()
    ensures { (taken given_up : List Prefix) (rows : List OneRow) → KeepsRows rows
        → AllByRecursion (λ prefix. is_held prefix rows ≡ true) given_up → AreApart taken given_up rows }
{}
