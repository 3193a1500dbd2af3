//! What the machine replies where an endpoint goes between a take and its finish.
ghost use Rattle.std.specs.Prelude.{◌≡◌};
ghost use Rattle.pol_history.specs.ExampleEvents.{at_most};
ghost use Rattle.pol_history.specs.Machine.{replies_to};
ghost use Rattle.history_examples.specs.Steps as steps;

/// A take that finds nobody changes nothing, so what was taken before is still to be finished. A finish says that the
/// endpoint has gone also where its map at that revision was reported, and where another endpoint has its name and slot
/// ('profile').
pub fn endpoints_that_go()
    ensures taken_in_vain { replies_to (at_most 2) steps.taken_in_vain ≡ steps.taken_in_vain_replies }
    ensures gone_though_reported { replies_to (at_most 2) steps.gone_though_reported
        ≡ steps.gone_though_reported_replies }
    ensures another_of_its_name { replies_to (at_most 2) steps.another_of_its_name ≡ steps.another_of_its_name_replies }
{}
