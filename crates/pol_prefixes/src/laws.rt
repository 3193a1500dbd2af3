//! Laws of prefix tables over rows. Each function does nothing: its contract is the law.
ghost use Rattle.std.specs.Prelude.{◌≡◌, ℕ, List, false, option_map};
ghost use Rattle.std.specs.List.{IsDistinct};
ghost use Rattle.pol_addr.specs.declared.address.Addr.{Addr as OneAddr};
ghost use Rattle.pol_addr.specs.Prefix.{same_prefix};
ghost use Rattle.pol_labels.specs.declared.label.Label.{Label};
ghost use Rattle.pol_rule.specs.declared.policy.Policy.{Policy as OnePolicy};
ghost use Rattle.pol_rule.specs.Prefixes.{policy_prefixes};
ghost use Rattle.pol_model.specs.declared.row.IdentityRow.{IdentityRow as OneRow};
ghost use Rattle.pol_model.specs.Identities.{is_local, labels_held, released};
ghost use Rattle.pol_model.specs.Remote.{longest_at};
ghost use Rattle.pol_model_laws.specs.Keeps.{KeepsRows};
ghost use Rattle.pol_prefix_table.specs.Table.{PrefixMap, look_up};
ghost use Rattle.pol_prefixes.specs.Tables.{IsTableOf};

/// An address finds in the table of the rows what a scan of the rows finds: the number of the longest held prefix that
/// contains it. There is one table of the rows.
pub fn a_table_of_rows_finds_the_longest()
    ensures found { (rows : List OneRow) (table : PrefixMap) (addr : OneAddr) → IsTableOf rows table
        → look_up table addr ≡ option_map (λ found. found.1) (longest_at addr rows) }
    ensures one { (rows : List OneRow) (table other : PrefixMap)
        → IsTableOf rows table → IsTableOf rows other → table ≡ other }
{}

/// What label sets hold and release leaves the table that of the rows.
pub fn label_sets_leave_the_table()
    ensures held { (labels : List Label) (rows : List OneRow) (table : PrefixMap)
        → IsTableOf rows table → IsTableOf (labels_held labels rows) table }
    ensures released { (number : ℕ) (rows : List OneRow) (table : PrefixMap)
        → KeepsRows rows → is_local number ≡ false → IsTableOf rows table → IsTableOf (released number rows) table }
{}

/// A policy names each of its prefixes once, as `gone_numbers` asks.
pub fn policies_name_prefixes_once()
    ensures { (policy : OnePolicy) → IsDistinct same_prefix (policy_prefixes policy) }
{}
