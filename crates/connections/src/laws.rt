//! What is told of each status. The function does nothing: its contract is the law.
ghost use Rattle.std.specs.Prelude.{◌≡◌, ◌∷◌, [], Some, None, codes, false, map, true};
ghost use Rattle.connections.specs.Ends.{complaint, has_read_all, is_answered, is_silent, status_number, statuses};

/// What is told of each status: its number; at which all was written, and at which nothing was; at which the input was read whole;
/// and what is said to standard error ('profile').
pub(crate) fn statuses_tell_ends()
    ensures numbers { map status_number statuses ≡ 0 ∷ 1 ∷ 2 ∷ 3 ∷ 4 ∷ 5 ∷ 6 ∷ 7 ∷ [] }
    ensures answered { map is_answered statuses
        ≡ true ∷ true ∷ false ∷ true ∷ false ∷ false ∷ false ∷ false ∷ [] }
    ensures silent { map is_silent statuses ≡ false ∷ false ∷ true ∷ false ∷ false ∷ true ∷ true ∷ true ∷ [] }
    ensures read { map has_read_all statuses ≡ true ∷ true ∷ false ∷ true ∷ true ∷ false ∷ false ∷ false ∷ [] }
    ensures said { map complaint statuses
        ≡ None ∷ None ∷ Some (codes "connections: usage") ∷ None ∷ Some (codes "connections: write failed")
        ∷ Some (codes "connections: out of memory") ∷ Some (codes "connections: input too long")
        ∷ Some (codes "connections: read failed") ∷ [] }
{}
