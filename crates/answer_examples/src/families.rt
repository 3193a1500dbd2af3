//! Scripts of addresses and prefixes of both families.
ghost use Rattle.std.specs.Prelude.{◌≡◌, codes};
ghost use Rattle.answer_examples.specs.Answered.{answered};
ghost use Rattle.answer_examples.specs.Script.{in_ipv6, refused_of_ipv6};

/// One address in two texts is taken. A prefix of IPv6 lets its addresses in, and the world of each family is the remote of what
/// lies in no prefix; the entity `world` is both. An exception of the other family lies outside, and `::` twice is no address
/// ('profile').
pub fn both_families_are_answered()
    ensures played { answered in_ipv6 ≡ codes
        "ok 1 identity 256\nrefused 35 address-taken at 1\nok 2\nsynced 2\nallowed at 2\ntrace denied-by-default at 2 remote 10 denies - allows -\ntrace denied-by-default at 2 remote 9 denies - allows -\nok 3\nsynced 3\ndenied-by-rule at 3\n" }
    ensures refused { answered refused_of_ipv6
        ≡ codes "refused 19 except-outside #0.egress[0]\nrefused 42 bad-address\n" }
{}
