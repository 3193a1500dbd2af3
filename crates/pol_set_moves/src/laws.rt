//! Laws of the changes of sets since a revision, over the definitions alone. Each function does nothing: its contract is
//! the law.
ghost use Rattle.std.specs.Prelude.{◌≡◌, ◌≤◌, ◌++◌, ◌∷◌, [], ℕ, List, Some, length, slice_get};
ghost use Rattle.std.specs.List.{AllByRecursion};
ghost use Rattle.pol_rule.specs.declared.policy.Peer.{Peer};
ghost use Rattle.pol_sets.specs.declared.sets.Move.{Move as OneMove};
ghost use Rattle.pol_sets.specs.declared.sets.SetRow.{SetRow as OneRow};
ghost use Rattle.pol_model.specs.declared.options.Options.{Options as AllOptions};
ghost use Rattle.pol_model.specs.declared.request.Request.{Request as OneRequest};
ghost use Rattle.pol_model.specs.After.{state_of};
ghost use Rattle.pol_model.specs.State.{State};
ghost use Rattle.pol_model_laws.specs.WithoutFaults.{WithoutFaults};
ghost use Rattle.pol_set_changes.specs.Log.{since};
ghost use Rattle.pol_set_changes.specs.Sets.{IsMove};
ghost use Rattle.pol_selcache.specs.Cache.{Cache};
ghost use Rattle.pol_selcache.specs.Live.{AreLive, number_of};
ghost use Rattle.pol_peers.specs.Numbering.{GainsSelectors, LosesSelectors};
ghost use Rattle.pol_allocator.specs.Held.{nothing_held};
ghost use Rattle.pol_store.specs.Store.{StandsFor, Stored};
ghost use Rattle.pol_set_moves.specs.Chained.{IsChained, LeadsOn};
ghost use Rattle.pol_set_moves.specs.Changes.{IsListedSince, horizon_of, set_in, state_at};
ghost use Rattle.pol_set_moves.specs.Moves.{TellsMoves, moves_of};

/// Before the first request no selector is live and no set has changed.
pub fn chains_start()
    ensures { (options : AllOptions) (cache : Cache)
        → cache ≡ nothing_held.cache → IsChained options [] (0 ∷ []) cache }
{}

/// What is kept goes on with each request that is done, with one next number more; and it stays where selectors only came,
/// or where those that came for a request go again.
pub fn chains_go_on()
    ensures done { (options : AllOptions) (journal : List OneRequest) (request : OneRequest)
        (old new : Stored) (nexts : List ℕ) → WithoutFaults options journal → StandsFor (state_of options journal) old
        → LeadsOn (state_of options journal) request old.cache new → IsChained options journal nexts old.cache
        → IsChained options (journal ++ request ∷ []) (nexts ++ new.cache.next ∷ []) new.cache }
    ensures stays { (options : AllOptions) (journal : List OneRequest) (old new : Stored) (nexts : List ℕ)
        → StandsFor (state_of options journal) old
        → StandsFor (state_of options journal) new → AreLive new.cache.live → GainsSelectors old.cache new.cache
        → IsChained options journal nexts old.cache → IsChained options journal nexts new.cache }
    ensures withdrawn { (s : State) (old new : Stored) (mid : Cache)
        → StandsFor s old → StandsFor s new → AreLive old.cache.live
        → GainsSelectors old.cache mid → LosesSelectors mid new.cache → GainsSelectors old.cache new.cache }
{}

/// What is kept tells the horizon of the journal, and of each peer that is listed ever since a revision that isn't below
/// it the numbers that its set gained and lost since then.
pub fn chains_tell()
    ensures horizon { (options : AllOptions) (journal : List OneRequest) (nexts : List ℕ) (cache : Cache)
        → IsChained options journal nexts cache → cache.log.horizon ≡ horizon_of options journal }
    ensures moves { (options : AllOptions) (journal : List OneRequest) (nexts : List ℕ) (cache : Cache)
        → IsChained options journal nexts cache → (revision : ℕ) → revision ≤ length journal
        → cache.log.horizon ≤ revision → (p : Peer) (number : ℕ) → number_of p cache.live ≡ Some number
        → IsListedSince options journal revision p → (m : OneMove) × (since cache.log number revision ≡ Some m)
        × IsMove (set_in (state_at options journal revision) p) (set_in (state_of options journal) p) m }
    ensures rows { (options : AllOptions) (journal : List OneRequest) (nexts : List ℕ) (cache : Cache)
        → IsChained options journal nexts cache
        → (revision next : ℕ) → revision ≤ length journal → slice_get nexts revision ≡ Some next
        → (rows : List OneRow) → AllByRecursion (λ row. number_of row.peer cache.live ≡ Some row.selector) rows
        → TellsMoves options journal revision rows (moves_of cache.log next revision rows) }
{}
