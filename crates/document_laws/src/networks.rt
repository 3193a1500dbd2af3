//! Each NetworkPolicy is read again from the document that writes it.
ghost use Rattle.std.specs.Prelude.{◌≡◌, Some, option_map, Ok};
ghost use Rattle.serde_json.specs.Data.{Data};
ghost use Rattle.serde_json.specs.Read.{read};
ghost use Rattle.serde_json.specs.Written.{compact_text};
ghost use Rattle.document_laws.specs.NetworkKept.{IsKeptNetwork};
ghost use Rattle.document_laws.specs.NetworkWellFormed.{IsWellFormedNetwork};
ghost use Rattle.document_laws.specs.NetworkWritten.{network_document_of};
ghost use Rattle.pol_netpol.specs.Document.{read_document};
ghost use Rattle.pol_netpol.specs.declared.raw.RawNetworkPolicy.{RawNetworkPolicy};

/// A well-formed NetworkPolicy is read again from the document that writes it: no member, no item and no text of it is lost,
/// and none is read as another.
pub fn networks_are_read_again()
    ensures { (policy : RawNetworkPolicy)
        → IsWellFormedNetwork policy → read_document (network_document_of policy) ≡ Ok policy }
{}

/// What is read is well formed, so that no condition of a well-formed NetworkPolicy could be left out; and whatever document one
/// is read from, it is read from the one that writes it too.
pub fn networks_that_are_read_are_well_formed()
    ensures well { (d : Data) (policy : RawNetworkPolicy) → read_document d ≡ Ok policy → IsWellFormedNetwork policy }
    ensures again { (d : Data) (policy : RawNetworkPolicy)
        → read_document d ≡ Ok policy → read_document (network_document_of policy) ≡ Ok policy }
{}

/// The same of the bytes: what the JSON crate reads of the document's text is that document, where labels stand in byte order
/// and the numbers of ports have 64 bits at most.
pub fn texts_of_networks_are_read_again()
    ensures { (policy : RawNetworkPolicy) → IsWellFormedNetwork policy → IsKeptNetwork policy
        → option_map read_document (read (compact_text (network_document_of policy))) ≡ Some (Ok policy) }
{}
