//! Each policy is read again from the documents that write it.
ghost use Rattle.std.specs.Prelude.{◌≡◌, Some, option_map, Ok};
ghost use Rattle.serde_json.specs.Data.{Data};
ghost use Rattle.serde_json.specs.Read.{read};
ghost use Rattle.serde_json.specs.Written.{compact_text};
ghost use Rattle.document_laws.specs.Kept.{IsKept};
ghost use Rattle.document_laws.specs.WellFormed.{IsWellFormed};
ghost use Rattle.document_laws.specs.Written.{document_of, listed_document_of};
ghost use Rattle.pol_json.specs.Document.{read_document};
ghost use Rattle.pol_rule.specs.declared.raw.RawPolicy.{RawPolicy};

/// A well-formed policy is read again from the document that writes it, and from the one that has all its rules in `specs`:
/// no member, no item and no text of it is lost, and none is read as another.
pub fn policies_are_read_again()
    ensures first_in_spec { (policy : RawPolicy)
        → IsWellFormed policy → read_document (document_of policy) ≡ Ok policy }
    ensures all_in_specs { (policy : RawPolicy)
        → IsWellFormed policy → read_document (listed_document_of policy) ≡ Ok policy }
{}

/// What is read is well formed, so that no condition of a well-formed policy could be left out; and whatever document a policy
/// is read from, it is read from the one that writes it too.
pub fn what_is_read_is_well_formed()
    ensures well { (d : Data) (policy : RawPolicy) → read_document d ≡ Ok policy → IsWellFormed policy }
    ensures again { (d : Data) (policy : RawPolicy)
        → read_document d ≡ Ok policy → read_document (document_of policy) ≡ Ok policy }
{}

/// The same of the bytes: what the JSON crate reads of the document's text is that document, where labels stand in byte order
/// and `endPort`s have 64 bits at most.
pub fn texts_are_read_again()
    ensures first_in_spec { (policy : RawPolicy) → IsWellFormed policy → IsKept policy
        → option_map read_document (read (compact_text (document_of policy))) ≡ Some (Ok policy) }
    ensures all_in_specs { (policy : RawPolicy) → IsWellFormed policy → IsKept policy
        → option_map read_document (read (compact_text (listed_document_of policy))) ≡ Some (Ok policy) }
{}
