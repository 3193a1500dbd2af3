//! Laws of histories, over the definitions alone.
ghost use Rattle.std.specs.Prelude.{◌≡◌, ◌+◌, ◌++◌, ◌<◌, ◌≤◌, ◌^◌, ◌↔◌, ◌∷◌, [], IfSome, List, Some, length, take, ℕ};
ghost use mathlib.Core.List.{IsPrefix};
ghost use Rattle.pol_model.specs.Endpoints.{endpoint_of};
ghost use Rattle.pol_model.specs.declared.answer.Committed.{Committed};
ghost use Rattle.pol_model.specs.declared.answer.FullSlot.{FullSlot};
ghost use Rattle.pol_model.specs.declared.answer.Refused.{Refused};
ghost use Rattle.pol_model.specs.declared.answer.Trace.{Trace};
ghost use Rattle.pol_model.specs.declared.options.Options.{Options};
ghost use Rattle.pol_model.specs.declared.request.Query.{Query};
ghost use Rattle.pol_model.specs.declared.request.Request.{Request};
ghost use Rattle.pol_model.specs.declared.row.Endpoint.{Endpoint};
ghost use Rattle.pol_mapkey.specs.declared.Word.{Word};
ghost use Rattle.pol_history.specs.declared.event.EndpointId.{EndpointId as OneEndpoint};
ghost use Rattle.pol_history.specs.declared.event.HistoryEvent.{HistoryEvent as OneEvent};
ghost use Rattle.pol_history.specs.declared.machine.Event.{Event as Step};
ghost use Rattle.pol_history.specs.Commits.{commits_by, commits_in, live_endpoint, revision_of, state_after, state_now, Lives};
ghost use Rattle.pol_history.specs.Content.{content_after, content_of};
ghost use Rattle.pol_history.specs.Held.{ShowsRow};
ghost use Rattle.pol_history.specs.LookIn.{MapsAreRead, look_in};
ghost use Rattle.pol_history.specs.Calls.{Counts, HasPublish, IsAbsent, IsAccepted, IsRefused, IsRow, IsTraced};
ghost use Rattle.pol_history.specs.Grows.{Grows, GrowsWhole, PassState, PassView};
ghost use Rattle.pol_history.specs.Meet.{AreOf, AreShown, HaveMet, meetings_of};
ghost use Rattle.pol_history.specs.Regenerate.{IsFull, IsGone, IsPublished};
ghost use Rattle.pol_history.specs.Legal.{IsLegal};
ghost use Rattle.pol_history.specs.Look.{FindsSince, Found, look};
ghost use Rattle.pol_history.specs.Machine.{AreOfPassZero, HasSteps, Machine, machine_start, step_of};
ghost use Rattle.pol_history.specs.MachineKeeps.{IsSound};
ghost use Rattle.pol_history.specs.MayFollow.{EachMayFollow, MayFollow};
ghost use Rattle.pol_history.specs.Reports.{IsLastPublish, IsLastReport, IsReport, last_published, last_report, report_after};

// ---- legal histories

/// A history is legal exactly where each of its events may follow those before it ('profile').
pub fn legal_event_by_event()
    ensures { (options : Options) (history : List OneEvent) → IsLegal options history ↔ EachMayFollow options history }
{}

/// A legal history stays legal exactly by an event that may follow it, and its beginnings are legal ('profile').
pub fn legal_histories_grow()
    ensures more { (options : Options) (history : List OneEvent) (event : OneEvent)
        → IsLegal options (history ++ event ∷ []) ↔ (IsLegal options history × MayFollow options history event) }
    ensures beginnings { (options : Options) (history : List OneEvent) (n : ℕ)
        → IsLegal options history → IsLegal options (take n history) }
{}

/// What one event more makes of the commits, of those of one pass, of an endpoint's last report, and of what a board
/// holds ('profile').
pub fn one_event_more()
    ensures commits { (history : List OneEvent) (event : OneEvent)
        → commits_in (history ++ event ∷ []) ≡ commits_in history ++ commits_in (event ∷ []) }
    ensures own { (pass : ℕ) (history : List OneEvent) (event : OneEvent)
        → commits_by pass (history ++ event ∷ []) ≡ commits_by pass history ++ commits_by pass (event ∷ []) }
    ensures report { (endpoint : OneEndpoint) (history : List OneEvent) (event : OneEvent)
        → last_report endpoint (history ++ event ∷ [])
        ≡ report_after endpoint (revision_of history) (last_report endpoint history) event }
    ensures content { (options : Options) (history : List OneEvent) (event : OneEvent)
        → content_of options (history ++ event ∷ [])
        ≡ content_after options (commits_in history) (content_of options history) event }
{}

/// What a board holds of a legal history: the number of its commits, and by name each live endpoint, with its last report
/// and its last published map, which is the canonical one at its revision, with what each address was there. It holds
/// nothing of an endpoint that is gone ('profile').
pub fn boards_hold()
    ensures commits { (options : Options) (history : List OneEvent)
        → (content_of options history).commits ≡ revision_of history }
    ensures rows { (options : Options) (history : List OneEvent) (name : List ℕ) → IsLegal options history
        → ShowsRow options history name ((content_of options history).live name) }
{}

/// A look-up is told by what a board holds, wherever reading an endpoint's map gives the verdict of a scan of all rules,
/// which is the law of the map ('profile').
pub fn looks_are_told()
    ensures { (options : Options) (history : List OneEvent) (query : Query) → MapsAreRead options → query.port < 2 ^ 16
        → IsLegal options history → look_in (content_of options history) query ≡ look options history query }
{}

/// A live endpoint's row is the same at each revision since it was added ('profile').
pub fn rows_stay()
    ensures { (options : Options) (history : List OneEvent) (endpoint : OneEndpoint) (row : Endpoint) (revision : ℕ)
        → endpoint.added ≤ revision → revision ≤ revision_of history
        → live_endpoint endpoint (state_now options history) ≡ Some row
        → live_endpoint endpoint (state_after options history revision) ≡ Some row }
{}

// ---- the machine

/// **The law of histories.** A list of events is legal, with all its commits by pass 0, exactly where it is the history
/// of some steps of the machine. So what is legal is neither wider nor narrower than the machine ('profile').
pub fn law_of_histories()
    ensures { (options : Options) (history : List OneEvent)
        → (IsLegal options history × AreOfPassZero history) ↔ HasSteps options history }
{}

/// Each step of the machine keeps its history legal, and what it has taken ('profile').
pub fn machines_stay_sound()
    ensures start { (options : Options) → IsSound options machine_start }
    ensures step { (options : Options) (m : Machine) (step : Step)
        → IsSound options m → IsSound options (step_of options m step).1 }
{}

// ---- what a legal history tells of reports and looks

/// The last report of a live endpoint: its revision is one since the endpoint was added, and was committed before the
/// report ('profile').
pub fn last_reports_are_bounded()
    ensures { (options : Options) (history : List OneEvent) (endpoint : OneEndpoint)
        → IsLegal options history → IfSome (last_report endpoint history) (λ last.
        (endpoint.added ≤ last.revision) × (last.revision ≤ last.commits) × (last.commits ≤ revision_of history)) }
{}

/// Reports of one endpoint are of ever later revisions, each with all commits before the reports before it ('profile').
pub fn reports_grow()
    ensures revision { (options : Options) (history : List OneEvent) (endpoint : OneEndpoint) (i j first second : ℕ)
        → IsLegal options history → i < j
        → IsReport history i endpoint first → IsReport history j endpoint second → first < second }
    ensures commits { (options : Options) (history : List OneEvent) (endpoint : OneEndpoint) (i j first second : ℕ)
        → IsLegal options history → i < j → IsReport history i endpoint first
        → IsReport history j endpoint second → revision_of (take i history) ≤ second }
{}

/// The revision that the fold finds is that of the last event that published a map of the endpoint.
pub fn published_maps_are_the_last()
    ensures { (history : List OneEvent) (endpoint : OneEndpoint) (revision : ℕ)
        → (last_published endpoint history ≡ Some revision) ↔ IsLastPublish history endpoint revision }
{}

/// A look in a longer history finds a map that is no older, while the endpoint lives on ('profile').
pub fn looks_grow()
    ensures { (options : Options) (history more : List OneEvent)
        (query : Query) (row : Endpoint) (revision : ℕ) (word : Word) → IsLegal options (history ++ more)
        → endpoint_of query.endpoint (state_now options history).endpoints ≡ Some row
        → look options history query ≡ Found revision word
        → Lives (state_now options (history ++ more)) (record { name = query.endpoint; added = row.added })
        → FindsSince options (history ++ more) query revision }
{}

// ---- what passes have seen

/// Of two beginnings of one history the longer one begins with the other, so what two passes have seen joins. And what
/// a pass gains in two calls, one after the other, it gains in both, also where the second shows it all its own
/// commits ('profile').
pub fn views_join()
    ensures join { (first second history : List OneEvent)
        → IsPrefix first history → IsPrefix second history → length first ≤ length second → IsPrefix first second }
    ensures grow { (options : Options) (first second third : PassView) (own more : List Request)
        → Grows options first second own → Grows options second third more → Grows options first third (own ++ more) }
    ensures whole { (options : Options) (pass : ℕ) (first second third : PassView) (own more : List Request)
        → Grows options first second own
        → GrowsWhole options pass second third more → GrowsWhole options pass first third (own ++ more) }
{}

/// A history has at most as many commits as events, and so of one pass. A history begins another exactly where it is as
/// many of its first events as it has. Where it has as many commits of a pass, they are the same.
pub fn beginnings_have_fewer()
    ensures commits { (history : List OneEvent) → revision_of history ≤ length history }
    ensures own { (pass : ℕ) (history : List OneEvent) → length (commits_by pass history) ≤ length history }
    ensures cut { (old new : List OneEvent) → IsPrefix old new ↔ (take (length old) new ≡ old) }
    ensures same_own { (pass : ℕ) (old new : List OneEvent) → IsPrefix old new
        → length (commits_by pass new) ≡ length (commits_by pass old) → commits_by pass old ≡ commits_by pass new }
{}

// ---- what calls may answer

/// What a commit and a trace may answer, and a regeneration that published, found the map too large or found the endpoint
/// gone, they may answer to a caller who had seen less before and has seen more after, so calls that are made of others
/// answer what those may ('profile').
pub fn answers_stay()
    ensures accepted { (options : Options) (pass : ℕ) (shorter old new longer : List OneEvent)
        (request : Request) (done : Committed) → IsPrefix shorter old → IsPrefix new longer
        → IsAccepted options pass old new request done → IsAccepted options pass shorter longer request done }
    ensures refused { (options : Options) (shorter old new longer : List OneEvent)
        (request : Request) (refused : Refused) → IsPrefix shorter old → IsPrefix new longer
        → IsRefused options old new request refused → IsRefused options shorter longer request refused }
    ensures traced { (options : Options) (shorter old new longer : List OneEvent)
        (query : Query) (revision : ℕ) (trace : Trace) → IsPrefix shorter old → IsPrefix new longer
        → IsTraced options old new query revision trace → IsTraced options shorter longer query revision trace }
    ensures absent { (options : Options) (shorter old new longer : List OneEvent) (query : Query) (revision : ℕ)
        → IsPrefix shorter old → IsPrefix new longer
        → IsAbsent options old new query revision → IsAbsent options shorter longer query revision }
    ensures row { (shorter old new longer : List OneEvent) (synced : ℕ) (row : FullSlot)
        → IsPrefix shorter old → IsPrefix new longer → IsRow old new synced row → IsRow shorter longer synced row }
    ensures publish { (shorter old new longer : List OneEvent) (synced : ℕ) (endpoint : OneEndpoint)
        → IsPrefix shorter old → IsPrefix new longer
        → HasPublish old new synced endpoint → HasPublish shorter longer synced endpoint }
    ensures published { (options : Options) (slot : ℕ) (shorter old new longer : List OneEvent) (revision : ℕ)
        → IsPrefix shorter old → IsPrefix new longer
        → IsPublished options slot old new revision → IsPublished options slot shorter longer revision }
    ensures full { (options : Options) (slot : ℕ) (shorter old new longer : List OneEvent) (revision count : ℕ)
        → IsPrefix shorter old → IsPrefix new longer
        → IsFull options slot old new revision count → IsFull options slot shorter longer revision count }
    ensures gone { (options : Options) (slot : ℕ) (shorter old new longer : List OneEvent) → IsPrefix shorter old
        → IsPrefix new longer → IsGone options slot old new → IsGone options slot shorter longer }
{}

/// A report counts for a sync where it was made in the call, or is the endpoint's last one, and is of the sync's revision or
/// a later one ('profile').
pub fn reports_count()
    ensures made { (old new : List OneEvent) (synced place revision : ℕ) (endpoint : OneEndpoint) → synced ≤ revision
        → IsReport new place endpoint revision → length old ≤ place → Counts old new synced place endpoint revision }
    ensures last { (old new : List OneEvent) (synced place revision : ℕ) (endpoint : OneEndpoint)
        → synced ≤ revision → length old ≤ length new
        → IsLastReport new (length new) place endpoint revision → Counts old new synced place endpoint revision }
{}

/// Passes of a list have met once each of them was shown one history, whose commits are of the passes that were handed
/// out ('profile').
pub fn passes_meet()
    ensures { (options : Options) (passes : List ℕ) (history : List OneEvent) (before after : List PassState)
        → length after ≡ length before → AreOf passes history
        → AreShown options history (meetings_of before after) → HaveMet options passes (meetings_of before after) }
{}
