//! Laws of the text of answers, over the definitions alone.
//! Each function does nothing: its contract is the law.
ghost use Rattle.std.specs.Prelude.{◌≡◌, List, [], ◌∷◌, codes, map, IsTrue, Some, None};
ghost use Rattle.std.specs.List.{list_all};
ghost use Rattle.pol_json.specs.declared.fault.DocFault.TheVariants as doc;
ghost use Rattle.pol_mapkey.specs.declared.Word.TheVariants as word;
ghost use Rattle.pol_model.specs.declared.answer.Fault.TheVariants as request;
ghost use Rattle.pol_rule.specs.declared.policy.Section.TheVariants as section;
ghost use Rattle.pol_script.specs.Lines.{lines_of, ended, is_one_line};
ghost use Rattle.pol_script.specs.declared.line_fault.LineFault.TheVariants as line;
ghost use Rattle.pol_answer.specs.Faults.{fault_name, line_fault_name, rule_fault_name};
ghost use Rattle.pol_answer.specs.Shown.{shown, has_read_parts};
ghost use Rattle.pol_answer.specs.Text.{answer_words, text_of, texts_of, has_plain_names};
ghost use Rattle.pol_answer.specs.declared.answer.Answer.{Answer};
ghost use Rattle.pol_answer.specs.declared.answer.Answer.TheVariants as answer;

/// What the text of an answer is: one line, ended by its newline, where no name that is printed as it is
/// holds a newline. So the lines of the answers' texts are the answers again.
pub fn answer_lines()
    ensures line { (answer : Answer) → text_of answer ≡ ended (answer_words answer) }
    ensures one_line { (answer : Answer)
        → IsTrue (has_plain_names answer) → IsTrue (is_one_line (answer_words answer)) }
    ensures again { (answers : List Answer)
        → IsTrue (list_all has_plain_names answers) → lines_of (texts_of answers) ≡ map answer_words answers }
{}

/// The text determines the answer: two answers with the same text are equal, but for the bytes of names
/// that are printed as `?`, where their names, policy keys and fault numbers are such as reading gives and
/// their numbers have at most 64 bits. And those bytes are all that a text leaves out.
pub fn the_text_tells_the_answer()
    ensures tells { (a b : Answer) → IsTrue (has_read_parts a)
        → IsTrue (has_read_parts b) → text_of a ≡ text_of b → shown a ≡ shown b }
    ensures no_more { (a : Answer) → text_of (shown a) ≡ text_of a }
{}

/// So do the texts of some answers, one behind another: they are cut at their newlines in one way, so where two
/// lists give the same bytes they have as many answers, and each tells the other's. For names and keys such as
/// reading gives hold no newline.
pub fn the_texts_tell_the_answers()
    ensures plain { (answer : Answer) → IsTrue (has_read_parts answer) → IsTrue (has_plain_names answer) }
    ensures tell { (a b : List Answer) → IsTrue (list_all has_read_parts a)
        → IsTrue (list_all has_read_parts b) → texts_of a ≡ texts_of b → map shown a ≡ map shown b }
{}

/// The texts of some answers, written out ('profile').
pub fn answer_examples()
    ensures commits { texts_of (answer.Committed 1 (Some 256) ∷ answer.Committed 4 None ∷ [])
        ≡ codes "ok 1 identity 256\nok 4\n" }
    ensures phase { text_of (answer.Phase 2) ≡ codes "phase 2\n" }
    ensures looks { texts_of (answer.Verdict 4 word.Allowed ∷ answer.Verdict 4 word.DeniedByRule
        ∷ answer.Verdict 4 word.DeniedByDefault ∷ answer.NoEndpoint 4 ∷ answer.NotYet 3 ∷ [])
        ≡ codes "allowed at 4\ndenied-by-rule at 4\ndenied-by-default at 4\nnoendpoint at 4\nnotyet at 3\n" }
    ensures members { texts_of (answer.BadLine (line.BadField (codes "port")) ∷ answer.BadLine
        (line.UnknownField (codes "prot")) ∷ []) ≡ codes "refused 3 bad-field port\nrefused 4 unknown-field prot\n" }
    ensures documents { texts_of (answer.BadLine (line.Doc doc.NotPolicy) ∷ answer.BadLine (line.Doc doc.NoName)
        ∷ answer.BadLine (line.Doc doc.NoSpec) ∷ answer.BadLine (line.Doc (doc.UnknownMember (codes "spec.a b")))
        ∷ answer.BadLine (line.Doc (doc.Unsupported (codes "toFQDNs")))
        ∷ answer.BadLine (line.Doc (doc.WrongShape (codes "spec.ingress[0]"))) ∷ []) ≡ codes
        "refused 10 not-policy\nrefused 11 no-name\nrefused 12 no-spec\nrefused 13 unknown-member spec.a?b\nrefused 14 unsupported toFQDNs\nrefused 25 wrong-shape spec.ingress[0]\n" }
    ensures rules { texts_of (answer.BadLine (line.Rule (record { number = 17; rule = 0; «at» = None }))
        ∷ answer.BadLine (line.Rule (record { number = 18; rule = 2; «at» = Some (section.EgressDeny, 12) })) ∷ [])
        ≡ codes "refused 17 bad-selector #0\nrefused 18 bad-cidr #2.egressDeny[12]\n" }
    ensures networks { texts_of (answer.BadLine (line.Rule (record { number = 26; rule = 0; «at» = None }))
        ∷ answer.BadLine (line.Rule (record { number = 27; rule = 0; «at» = Some (section.Ingress, 0) })) ∷ [])
        ≡ codes "refused 26 bad-policy-type #0\nrefused 27 bad-peer #0.ingress[0]\n" }
    ensures requests { text_of (answer.Refused (record { revision = 65280; fault = request.IdentitiesExhausted }))
        ≡ codes "refused 37 identities-exhausted at 65280\n" }
{}

/// The numbers and names of the faults of rules, of requests, and of lines that are told by no more ('profile').
pub fn fault_names()
    ensures rules { map rule_fault_name (15 ∷ 16 ∷ 17 ∷ 18 ∷ 19 ∷ 20 ∷ 21 ∷ 22 ∷ 23 ∷ 24 ∷ 26 ∷ 27 ∷ 28 ∷ [])
        ≡ codes "15 no-selector" ∷ codes "16 combining"
        ∷ codes "17 bad-selector" ∷ codes "18 bad-cidr" ∷ codes "19 except-outside"
        ∷ codes "20 unknown-entity" ∷ codes "21 bad-port" ∷ codes "22 bad-protocol" ∷ codes "23 too-many-ports"
        ∷ codes "24 empty-ports" ∷ codes "26 bad-policy-type" ∷ codes "27 bad-peer" ∷ codes "28 bad-end-port" ∷ [] }
    ensures requests { map fault_name (request.DuplicateEndpoint ∷ request.UnknownEndpoint
        ∷ request.EndpointsFull ∷ request.DuplicateIdentityName ∷ request.UnknownIdentityName ∷ request.AddressTaken
        ∷ request.UnknownPolicy ∷ request.IdentitiesExhausted ∷ request.LocalExhausted ∷ request.ReservedLabel ∷ [])
        ≡ codes "30 duplicate-endpoint" ∷ codes "31 unknown-endpoint"
        ∷ codes "32 endpoints-full" ∷ codes "33 duplicate-identity-name"
        ∷ codes "34 unknown-identity-name" ∷ codes "35 address-taken" ∷ codes "36 unknown-policy"
        ∷ codes "37 identities-exhausted" ∷ codes "38 local-exhausted" ∷ codes "41 reserved-label" ∷ [] }
    ensures lines { map line_fault_name (line.Json
        ∷ line.NoOp ∷ line.BadLabel ∷ line.DuplicateLabelKey ∷ line.BadAddress ∷ []) ≡ codes "1 json"
        ∷ codes "2 no-op" ∷ codes "39 bad-label" ∷ codes "40 duplicate-label-key" ∷ codes "42 bad-address" ∷ [] }
{}
