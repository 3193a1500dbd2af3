//! Objects as `kubectl` prints them.
ghost use Rattle.std.specs.Prelude.{◌≡◌, ◌∷◌, [], codes, Ok};
ghost use Rattle.pol_model.specs.declared.request.Request.TheVariants.{Apply};
ghost use Rattle.pol_netpol.specs.Examples.{web_to_db as network_web_to_db};
ghost use Rattle.pol_netpol.specs.Translated.{policy_of};
ghost use Rattle.pol_run.specs.Run.{readings_of};
ghost use Rattle.pol_script.specs.declared.command.Command.TheVariants.{Commit};
ghost use Rattle.answer_examples.specs.Answered.{answered, applies};
ghost use Rattle.answer_examples.specs.Kubectl.{cilium_object, network_object, web_to_db};

/// What a cluster adds to an object says nothing: `status`, and in `metadata` all but the name and the namespace, as `uid`,
/// `annotations` and `managedFields` (Kubernetes, "API Conventions"; 'profile').
pub fn what_clusters_add_is_ignored()
    ensures network { readings_of (applies network_object) ≡ Ok (Commit 1 (Apply (policy_of network_web_to_db))) ∷ [] }
    ensures cilium { readings_of (applies cilium_object) ≡ Ok (Commit 1 (Apply web_to_db)) ∷ [] }
    ensures network_answer { answered (applies network_object) ≡ codes "ok 1\n" }
    ensures cilium_answer { answered (applies cilium_object) ≡ codes "ok 1\n" }
{}
