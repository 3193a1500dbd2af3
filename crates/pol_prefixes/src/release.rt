//! Prefixes given back.
ghost use Rattle.std.specs.Prelude.{◌≡◌};
ghost use Rattle.pol_model.specs.Prefixes.{prefix_released, prefixes_released};
ghost use Rattle.pol_model_laws.specs.Keeps.{KeepsRows};
ghost use Rattle.pol_prefixes.specs.Tables.{IsTableOf};

use pol_addr::Prefix;
use pol_ident::Identities;
use pol_prefix_table::PrefixTable;

/// Takes one holder away from the prefix. With its last one the prefix leaves the table.
fn release_prefix(identities: &mut Identities, table: &mut PrefixTable, prefix: Prefix)
    requires table { IsTableOf identities.old table.old }
    ensures rows { identities.new ≡ prefix_released prefix identities.old }
    ensures table { IsTableOf identities.new table.new }
    ensures sound { KeepsRows identities.new }
{
    if let Some(number) = identities.number_of_prefix(&prefix) {
        identities.release(number);
        if !identities.held(number) {
            table.remove(prefix);
        }
    }
}

/// Takes one holder away from each prefix, one after another. A prefix without holders loses its number, and leaves the
/// table; one that has no number is passed over. The table stays that of the rows. It takes no memory.
pub fn release_prefixes(identities: &mut Identities, table: &mut PrefixTable, prefixes: &[Prefix])
    requires table { IsTableOf identities.old table.old }
    ensures rows { identities.new ≡ prefixes_released prefixes.now identities.old }
    ensures table { IsTableOf identities.new table.new }
{
    for prefix in prefixes {
        release_prefix(identities, table, *prefix);
    }
}
