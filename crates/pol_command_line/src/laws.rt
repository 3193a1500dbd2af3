//! Laws of the words, over the definitions alone.
//! Each function does nothing: its contract is the law.
ghost use Rattle.std.specs.Prelude.{◌≡◌, true, false, [], ◌∷◌, codes, None, Some};
ghost use Rattle.pol_model.specs.declared.options.Mode.TheVariants.{Default, Always, Never};
ghost use Rattle.pol_command_line.specs.declared.task.Task.TheVariants.{Play, Generate, Map, Audit, Crash};
ghost use Rattle.pol_command_line.specs.declared.TheConstants.{MAP_MAX};
ghost use Rattle.pol_command_line.specs.Given.{words_given, words_fit};
ghost use Rattle.pol_command_line.specs.Options.{options_given};

/// What some words give ('profile').
pub fn words_that_fit()
    ensures none { words_given []
        ≡ Some (record {
          options = record { mode = Default; localhost = true; map_max = Some 16384 };
          workers = 2;
          task = Play;
        }) }
    ensures all { words_given (codes "--generate" ∷ codes "10000"
        ∷ codes "--workers=0" ∷ codes "--allow-localhost" ∷ codes "policy" ∷ codes "--enable-policy=never" ∷ [])
        ≡ Some (record {
          options = record { mode = Never; localhost = false; map_max = Some MAP_MAX };
          workers = 0;
          task = Generate 10000;
        }) }
    ensures greatest { words_given (codes "--workers"
        ∷ codes "8" ∷ codes "--generate" ∷ codes "1" ∷ codes "--enable-policy" ∷ codes "always" ∷ [])
        ≡ Some (record {
          options = record { mode = Always; localhost = true; map_max = Some MAP_MAX };
          workers = 8;
          task = Generate 1;
        }) }
    ensures end { words_fit (codes "--" ∷ []) ≡ true }
{}

/// The limit of maps: both ends fit, and one past each doesn't. It fits beside a map and an audit, never beside a generated
/// script ('profile').
pub fn words_that_limit_maps()
    ensures least { words_given (codes "--policy-map-max=256" ∷ []) ≡ Some
        (record {
          options = record { mode = Default; localhost = true; map_max = Some 256 };
          workers = 2;
          task = Play;
        }) }
    ensures greatest { words_given (codes "--workers=0" ∷ codes "--policy-map-max" ∷ codes "65536" ∷ [])
        ≡ Some (record {
          options = record { mode = Default; localhost = true; map_max = Some 65536 };
          workers = 0;
          task = Play;
        }) }
    ensures default { words_given (codes "--policy-map-max=16384" ∷ []) ≡ words_given [] }
    ensures below { words_fit (codes "--policy-map-max=255" ∷ []) ≡ false }
    ensures above { words_fit (codes "--policy-map-max=65537" ∷ []) ≡ false }
    ensures twice { words_fit (codes "--policy-map-max=256" ∷ codes "--policy-map-max=256" ∷ []) ≡ false }
    ensures value { words_fit (codes "--policy-map-max" ∷ []) ≡ false }
    ensures map { words_given (codes "--map=web" ∷ codes "--policy-map-max=256" ∷ [])
        ≡ Some (record {
          options = record { mode = Default; localhost = true; map_max = Some 256 };
          workers = 2;
          task = Map (codes "web");
        }) }
    ensures audit { words_fit (codes "--policy-map-max=256" ∷ codes "--audit" ∷ []) ≡ true }
    ensures generate { words_fit (codes "--generate=1" ∷ codes "--policy-map-max=65536" ∷ []) ≡ false }
    ensures generate_default { words_fit (codes "--policy-map-max=16384" ∷ codes "--generate=1" ∷ []) ≡ false }
{}

/// What is to be done: the name of a map is any text, an empty one too ('profile').
pub fn words_that_ask_for_maps()
    ensures map { words_given (codes "--map" ∷ codes "web" ∷ [])
        ≡ Some (record {
          options = record { mode = Default; localhost = true; map_max = Some MAP_MAX };
          workers = 2;
          task = Map (codes "web");
        }) }
    ensures no_name { words_given (codes "--map=" ∷ []) ≡ words_given (codes "--map" ∷ [] ∷ []) }
    ensures empty_name { words_given (codes "--map=" ∷ [])
        ≡ Some (record {
          options = record { mode = Default; localhost = true; map_max = Some MAP_MAX };
          workers = 2;
          task = Map [];
        }) }
    ensures audit { words_given (codes "--audit" ∷ codes "--workers=0" ∷ [])
        ≡ Some (record {
          options = record { mode = Default; localhost = true; map_max = Some MAP_MAX };
          workers = 0;
          task = Audit;
        }) }
{}

/// A crash is at one of the calls 1 to 1,000,000 of a disk; it fits beside a limit of maps, and beside nothing else that is to be
/// done ('profile').
pub fn words_that_ask_for_crashes()
    ensures least { words_given (codes "--crash-at" ∷ codes "1" ∷ [])
        ≡ Some (record {
          options = record { mode = Default; localhost = true; map_max = Some MAP_MAX };
          workers = 2;
          task = Crash 1;
        }) }
    ensures greatest { words_given (codes "--policy-map-max=256" ∷ codes "--crash-at=1000000" ∷ [])
        ≡ Some (record {
          options = record { mode = Default; localhost = true; map_max = Some 256 };
          workers = 2;
          task = Crash 1000000;
        }) }
    ensures below { words_fit (codes "--crash-at=0" ∷ []) ≡ false }
    ensures above { words_fit (codes "--crash-at=1000001" ∷ []) ≡ false }
    ensures value { words_fit (codes "--crash-at" ∷ []) ≡ false }
    ensures twice { words_fit (codes "--crash-at=1" ∷ codes "--crash-at=1" ∷ []) ≡ false }
    ensures generate { words_fit (codes "--generate=1" ∷ codes "--crash-at=1" ∷ []) ≡ false }
    ensures map { words_fit (codes "--crash-at=1" ∷ codes "--map=web" ∷ []) ≡ false }
    ensures audit { words_fit (codes "--crash-at=1" ∷ codes "--audit" ∷ []) ≡ false }
{}

/// No two of a generated script, a map and an audit may be asked for, and none of them twice; a name that begins with a dash
/// stands behind an equals sign ('profile').
pub fn words_that_ask_for_two()
    ensures map_and_audit { words_fit (codes "--map=a" ∷ codes "--audit" ∷ []) ≡ false }
    ensures generate_and_audit { words_fit (codes "--audit" ∷ codes "--generate=1" ∷ []) ≡ false }
    ensures generate_and_map { words_fit (codes "--generate=1" ∷ codes "--map=a" ∷ []) ≡ false }
    ensures two_maps { words_fit (codes "--map=a" ∷ codes "--map=b" ∷ []) ≡ false }
    ensures two_audits { words_fit (codes "--audit" ∷ codes "--audit" ∷ []) ≡ false }
    ensures value { words_fit (codes "--audit=true" ∷ []) ≡ false }
    ensures name { words_fit (codes "--map" ∷ []) ≡ false }
    ensures option { words_fit (codes "--map" ∷ codes "--audit" ∷ []) ≡ false }
    ensures dash { words_fit (codes "--map=--audit" ∷ []) ≡ true }
{}

/// Some words that don't fit ('profile').
pub fn words_that_do_not_fit()
    ensures word { words_fit (codes "script" ∷ []) ≡ false }
    ensures help { words_fit (codes "--help" ∷ []) ≡ false }
    ensures short_help { words_fit (codes "-h" ∷ []) ≡ false }
    ensures twice { words_fit (codes "--workers=2" ∷ codes "--workers=2" ∷ []) ≡ false }
    ensures workers { words_fit (codes "--workers=9" ∷ []) ≡ false }
    ensures generate { words_fit (codes "--generate=0" ∷ []) ≡ false }
    ensures generate_more { words_fit (codes "--generate=10001" ∷ []) ≡ false }
    ensures mode { words_fit (codes "--enable-policy=Default" ∷ []) ≡ false }
    ensures localhost { words_fit (codes "--allow-localhost=never" ∷ []) ≡ false }
    ensures value { words_fit (codes "--workers" ∷ []) ≡ false }
{}

/// What some words of the program `connections` give ('profile').
pub fn words_of_connections()
    ensures none { options_given []
        ≡ Some (record { options = record { mode = Default; localhost = true; map_max = None }; halves = false }) }
    ensures all { options_given (codes "--allow-localhost=policy"
        ∷ codes "--halves" ∷ codes "--enable-policy" ∷ codes "never" ∷ [])
        ≡ Some (record { options = record { mode = Never; localhost = false; map_max = None }; halves = true }) }
    ensures two_halves { options_given (codes "--halves" ∷ codes "--halves" ∷ []) ≡ None }
    ensures halves_value { options_given (codes "--halves=true" ∷ []) ≡ None }
    ensures twice { options_given (codes "--enable-policy=always" ∷ codes "--enable-policy=always" ∷ []) ≡ None }
    ensures value { options_given (codes "--allow-localhost=never" ∷ []) ≡ None }
    ensures workers { options_given (codes "--workers=2" ∷ []) ≡ None }
    ensures word { options_given (codes "script" ∷ []) ≡ None }
{}
