//! Answers, each form of them and each fault, written out.
ghost use Rattle.std.specs.Prelude.{◌≡◌, [], ◌∷◌, codes, map, Some, None};
ghost use Rattle.pol_json.specs.declared.fault.DocFault.TheVariants as doc;
ghost use Rattle.pol_mapkey.specs.declared.Word.TheVariants as word;
ghost use Rattle.pol_model.specs.declared.answer.Fault.TheVariants as request;
ghost use Rattle.pol_rule.specs.declared.policy.Section.TheVariants as section;
ghost use Rattle.pol_script.specs.declared.line_fault.LineFault.TheVariants as line;
ghost use Rattle.pol_answer.specs.Text.{text_of, texts_of};
ghost use Rattle.pol_answer.specs.declared.answer.Answer.TheVariants as answer;
ghost use Rattle.script_examples.specs.Answers.{full, own, place, refused, traced, wide};

/// A trace has no place, one, or some that are joined by commas; a place of a cluster-wide policy has no namespace
/// ('profile').
pub fn traces()
    ensures none { text_of (traced word.DeniedByDefault [] [])
        ≡ codes "trace denied-by-default at 4 remote 257 denies - allows -\n" }
    ensures one { text_of (traced word.Allowed [] (place (own (codes "p")) 0 section.Egress 3 ∷ []))
        ≡ codes "trace allowed at 4 remote 257 denies - allows default/p#0.egress[3]\n" }
    ensures some { text_of (traced word.DeniedByRule (place (own (codes "q")) 0 section.IngressDeny 0 ∷ place (wide (codes "w")) 2 section.IngressDeny 1 ∷ []) (place (own (codes "p")) 0 section.Ingress 0 ∷ place (own (codes "p")) 0 section.Ingress 1 ∷ place (own (codes "q")) 1 section.Ingress 0 ∷ [])) ≡ codes "trace denied-by-rule at 4 remote 257 denies default/q#0.ingressDeny[0],/w#2.ingressDeny[1] allows default/p#0.ingress[0],default/p#0.ingress[1],default/q#1.ingress[0]\n" }
{}

/// A synchronisation tells each map that is too large ('profile').
pub fn synchronisations()
    ensures none { text_of (answer.Synced 4 []) ≡ codes "synced 4\n" }
    ensures one { text_of (answer.Synced 185 (full (codes "web") 185 16385 ∷ []))
        ≡ codes "synced 185 full web@185=16385\n" }
    ensures two { text_of (answer.Synced 185 (full (codes "api") 183 20000 ∷ full (codes "web") 185 16385 ∷ []))
        ≡ codes "synced 185 full api@183=20000 web@185=16385\n" }
{}

/// Each fault of a line that no request made ('profile').
pub fn faults_of_lines()
    ensures lines { texts_of (map answer.BadLine (line.Json ∷ line.NoOp ∷ line.BadField (codes "port")
        ∷ line.UnknownField (codes "prot") ∷ line.BadLabel ∷ line.DuplicateLabelKey ∷ line.BadAddress ∷ [])) ≡ codes
        "refused 1 json\nrefused 2 no-op\nrefused 3 bad-field port\nrefused 4 unknown-field prot\nrefused 39 bad-label\nrefused 40 duplicate-label-key\nrefused 42 bad-address\n" }
    ensures bytes { text_of (answer.BadLine (line.UnknownField (codes " a~\u{7f}")))
        ≡ codes "refused 4 unknown-field ?a~?\n" }
    ensures no_name { text_of (answer.BadLine (line.UnknownField [])) ≡ codes "refused 4 unknown-field \n" }
    ensures subjects { texts_of (map (λ number.
        answer.BadLine (line.Rule (record { number = number; rule = 1; «at» = None }))) (15 ∷ 17 ∷ []))
        ≡ codes "refused 15 no-selector #1\nrefused 17 bad-selector #1\n" }
    ensures entries { texts_of (map (λ number.
        answer.BadLine (line.Rule (record { number = number; rule = 0; «at» = Some (section.IngressDeny, 10) })))
        (16 ∷ 17 ∷ 18 ∷ 19 ∷ 20 ∷ 21 ∷ 22 ∷ 23 ∷ 24 ∷ [])) ≡ codes
        "refused 16 combining #0.ingressDeny[10]\nrefused 17 bad-selector #0.ingressDeny[10]\nrefused 18 bad-cidr #0.ingressDeny[10]\nrefused 19 except-outside #0.ingressDeny[10]\nrefused 20 unknown-entity #0.ingressDeny[10]\nrefused 21 bad-port #0.ingressDeny[10]\nrefused 22 bad-protocol #0.ingressDeny[10]\nrefused 23 too-many-ports #0.ingressDeny[10]\nrefused 24 empty-ports #0.ingressDeny[10]\n" }
{}

/// Each fault of a request, with the revision at which it holds ('profile').
pub fn faults_of_requests()
    ensures endpoints { texts_of (map refused (request.DuplicateEndpoint
        ∷ request.UnknownEndpoint ∷ request.EndpointsFull ∷ request.AddressTaken ∷ request.ReservedLabel ∷ [])) ≡ codes
        "refused 30 duplicate-endpoint at 7\nrefused 31 unknown-endpoint at 7\nrefused 32 endpoints-full at 7\nrefused 35 address-taken at 7\nrefused 41 reserved-label at 7\n" }
    ensures identities { texts_of (map refused
        (request.DuplicateIdentityName ∷ request.UnknownIdentityName ∷ request.IdentitiesExhausted ∷ [])) ≡ codes
        "refused 33 duplicate-identity-name at 7\nrefused 34 unknown-identity-name at 7\nrefused 37 identities-exhausted at 7\n" }
    ensures policies { texts_of (map refused (request.UnknownPolicy ∷ request.LocalExhausted ∷ []))
        ≡ codes "refused 36 unknown-policy at 7\nrefused 38 local-exhausted at 7\n" }
{}
