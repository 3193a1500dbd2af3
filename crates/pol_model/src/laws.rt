//! Laws of the definitions, each the contract of a function that does nothing.
ghost use Rattle.std.specs.Prelude.{◌≡◌, ◌==◌, ◌++◌, ◌∷◌, [], ◌<◌, ◌≤◌, ℕ, List, true, false, length, map};
ghost use Rattle.std.specs.List.{list_any};
ghost use Rattle.pol_model.specs.declared.options.Options.{Options as AllOptions};
ghost use Rattle.pol_model.specs.declared.request.Request.{Request as OneRequest};
ghost use Rattle.pol_model.specs.After.{after, state_of};
ghost use Rattle.pol_model.specs.Ascending.{Ascends};
ghost use Rattle.pol_model.specs.Numbers.{least_free};

/// The least free number from `first` on is at least `first`, isn't in the list where the list ascends,
/// and each number from `first` up to it is in the list.
pub fn least_free_number()
    ensures from { (first : ℕ) (numbers : List ℕ) → first ≤ least_free first numbers }
    ensures free { (first : ℕ) (numbers : List ℕ)
        → Ascends numbers → list_any (λ n. n == least_free first numbers) numbers ≡ false }
    ensures taken { (first : ℕ) (numbers : List ℕ) (n : ℕ)
        → first ≤ n → n < least_free first numbers → list_any (λ m. m == n) numbers ≡ true }
{}

/// The state after one request more is what that request makes of the state before it.
pub fn one_request_more()
    ensures { (options : AllOptions) (requests : List OneRequest) (request : OneRequest)
        → state_of options (requests ++ request ∷ []) ≡ after (state_of options requests) request }
{}

/// The revision is the number of requests so far.
pub fn revision_counts()
    ensures { (options : AllOptions) (requests : List OneRequest)
        → (state_of options requests).revision ≡ length requests }
{}

/// The identities of each state ascend by number, and its endpoints by slot: so no two share one, and the
/// least free number (`least_free_number`) is in none of them.
pub fn states_ascend()
    ensures identities { (options : AllOptions) (requests : List OneRequest)
        → Ascends (map (λ row. row.number) (state_of options requests).identities) }
    ensures endpoints { (options : AllOptions) (requests : List OneRequest)
        → Ascends (map (λ endpoint. endpoint.slot) (state_of options requests).endpoints) }
{}
