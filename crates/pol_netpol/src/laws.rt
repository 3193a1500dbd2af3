//! Laws of NetworkPolicies, over the definitions alone. Each function does nothing: its contract is the law.
ghost use Rattle.std.specs.Prelude.{◌≡◌, Ok, IsTrue};
ghost use Rattle.serde_json.specs.Data.{Data};
ghost use Rattle.pol_json.specs.Network.{network_name, network_namespace};
ghost use Rattle.pol_json.specs.Texts.{is_dns_name};
ghost use Rattle.pol_netpol.specs.Document.{key_of, netpol_of};
ghost use Rattle.pol_netpol.specs.Keeps.{KeepsItsMeaning, ReadKeepsItsMeaning};
ghost use Rattle.pol_rule.specs.declared.policy.Policy.{Policy};

/// A NetworkPolicy that is accepted becomes one rule, which selects, isolates and covers exactly where the object
/// does by its own definition: in every state, for every endpoint, direction, number, protocol and port. It denies
/// nothing, and has no entry in a direction that isn't among the object's types.
pub fn keeps_its_meaning()
    ensures { KeepsItsMeaning }
{}

/// What is read of a document means the same as the document's object, by the law above, and has its key.
pub fn what_is_read_keeps_its_meaning()
    ensures { ReadKeepsItsMeaning }
{}

/// The key of what is read is that of the document's namespace and name, and both have the form of names.
pub fn keys_of_documents_have_their_forms()
    ensures key { (d : Data) (policy : Policy) → netpol_of d ≡ Ok policy → policy.key ≡ key_of d }
    ensures name { (d : Data) (policy : Policy) → netpol_of d ≡ Ok policy → IsTrue (is_dns_name (network_name d)) }
    ensures namespace { (d : Data) (policy : Policy)
        → netpol_of d ≡ Ok policy → IsTrue (is_dns_name (network_namespace d)) }
{}
