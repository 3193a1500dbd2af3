//! Laws of the definitions: what is known of a document that is read, and of one that isn't.
ghost use Rattle.std.specs.Prelude.{◌≡◌, ◌↔◌, ℕ, true, false, List, [], None, Some, Ok, Err, IsTrue};
ghost use Rattle.serde_json.specs.Data.{Data};
ghost use Rattle.serde_json.specs.Read.{read};
ghost use Rattle.pol_json.specs.declared.fault.DocFault.{DocFault};
ghost use Rattle.pol_json.specs.Document.{head_fault, read_document};
ghost use Rattle.pol_json.specs.declared.table.ObjectKind.TheVariants as kind;
ghost use Rattle.pol_json.specs.Look.{LeadsTo, IsAt, IsOneOf, IsRead, IsFirstFault, NamesAscend, PathsAscend};
ghost use Rattle.pol_json.specs.Network.{network_fault, network_head_fault, network_name, network_namespace};
ghost use Rattle.pol_json.specs.Places.{Step, Place, places, cause_of};
ghost use Rattle.pol_json.specs.Table.{Shape};
ghost use Rattle.pol_json.specs.Texts.{is_dns_name};
ghost use Rattle.pol_rule.specs.declared.raw.RawPolicy.{RawPolicy};

/// The places that are visited are exactly those that a path leads to.
pub fn places_are_where_paths_lead()
    ensures { (shape : Shape) (d : Data) (place : Place)
        → IsOneOf place (places shape d) ↔ LeadsTo place.path shape d place.shape place.value }
{}

/// The places of a value whose objects have their names in order are visited in the order of paths:
/// members by the bytes of their names, items by their numbers, and a value before what it holds.
pub fn places_are_in_the_order_of_paths()
    ensures { (shape : Shape) (d : Data) → NamesAscend d → PathsAscend (places shape d) }
{}

/// What the JSON crate reads of a text is such a value.
pub fn what_is_read_has_its_names_in_order()
    ensures { (text : List ℕ) (d : Data) → read text ≡ Some d → NamesAscend d }
{}

/// A document that is read has nothing wrong at any place that a path leads to.
pub fn what_is_read_has_no_cause()
    ensures { (d : Data) (policy : RawPolicy)
        → read_document d ≡ Ok policy → (path : List Step) (shape : Shape) (value : Data)
        → IsAt kind.Policy path d shape value → cause_of shape value ≡ None }
{}

/// A document that is read has no unknown and no unsupported member, at any depth that is read.
pub fn what_is_read_is_of_the_table()
    ensures { (d : Data) (policy : RawPolicy) → read_document d ≡ Ok policy
        → (path : List Step) (shape : Shape) (value : Data) → IsAt kind.Policy path d shape value → IsRead shape }
{}

/// A policy with a name and a rule that is refused is so for what is wrong at a place that the fault's
/// path leads to, and nothing is wrong at the places before it.
pub fn the_first_fault_is_told()
    ensures { (d : Data) (fault : DocFault)
        → head_fault d ≡ None → read_document d ≡ Err fault → IsFirstFault kind.Policy d fault }
{}

/// The key of a document that is read: its name is the name of a policy, and its namespace that of a namespace; a
/// cluster-wide policy has none.
pub fn keys_have_their_forms()
    ensures name { (d : Data) (policy : RawPolicy)
        → read_document d ≡ Ok policy → IsTrue (is_dns_name policy.key.name) }
    ensures namespace { (d : Data) (policy : RawPolicy)
        → read_document d ≡ Ok policy → policy.key.cluster_wide ≡ false → IsTrue (is_dns_name policy.key.namespace) }
    ensures cluster_wide { (d : Data) (policy : RawPolicy)
        → read_document d ≡ Ok policy → policy.key.cluster_wide ≡ true → policy.key.namespace ≡ [] }
{}

/// The document of a NetworkPolicy without a fault has nothing wrong at any place that a path leads to.
pub fn networks_that_are_read_have_no_cause()
    ensures { (d : Data) → network_fault d ≡ None → (path : List Step) (shape : Shape) (value : Data)
        → IsAt kind.NetworkPolicy path d shape value → cause_of shape value ≡ None }
{}

/// A NetworkPolicy with a name and a spec that is refused is so for what is wrong at a place that the
/// fault's path leads to, and nothing is wrong at the places before it.
pub fn the_first_fault_of_a_network_is_told()
    ensures { (d : Data) (fault : DocFault)
        → network_head_fault d ≡ None → network_fault d ≡ Some fault → IsFirstFault kind.NetworkPolicy d fault }
{}

/// The name of a NetworkPolicy without a fault is the name of a policy, and its namespace that of a namespace.
pub fn names_of_networks_have_their_forms()
    ensures name { (d : Data) → network_fault d ≡ None → IsTrue (is_dns_name (network_name d)) }
    ensures namespace { (d : Data) → network_fault d ≡ None → IsTrue (is_dns_name (network_namespace d)) }
{}
