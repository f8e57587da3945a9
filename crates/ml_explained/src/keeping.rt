//! What keeps a history explained. The functions do nothing: their contracts are the laws.
ghost use Rattle.ml_asking.specs.Leads.{store_after_log};
ghost use Rattle.ml_explained.specs.Explained.{commits, Ended, found_no_memory, IsExplained};
ghost use Rattle.ml_explained.specs.Explained.{lists_after, lists_after_one};
ghost use Rattle.ml_isolation.specs.Logs.{IsApartFrom};
ghost use Rattle.ml_isolation.specs.Notes.{Noted, notes_of};
ghost use Rattle.ml_isolation.specs.Places.{AreBelow};
ghost use Rattle.ml_search.specs.Db.{Db, is_committed, is_db};
ghost use Rattle.ml_search.specs.Operations.{is_log, is_valid_after, Log, Operation, Reply};
ghost use Rattle.ml_search.specs.Replay.{Replays};
ghost use Rattle.ml_term.specs.declared.declaration.Decl.{Decl};
ghost use Rattle.std.specs.Prelude.{◌+◌, ◌++◌, ◌∷◌, ◌≡◌, ◌≢◌, ◌⊎◌, [], Contains, false, length};
ghost use Rattle.std.specs.Prelude.{List, true, ℕ};

/// The lists after the entries of an explained history are ones that their declarations may have,
/// no item of them is uncommitted, and the place of each is at most the number of entries.
/// `next`: one more entry changes them at the next place.
pub fn explained_lists_are_lists()
    ensures lists { (decls : List Decl) (start : Db) (ended : List Ended)
        (live : List (ℕ × Log)) → IsExplained decls start ended live →
        is_db decls (lists_after decls 1 start ended) ≡ true }
    ensures committed { (decls : List Decl) (start : Db) (ended : List Ended)
        (live : List (ℕ × Log)) → IsExplained decls start ended live →
        is_committed (lists_after decls 1 start ended) ≡ true }
    ensures places { (decls : List Decl) (start : Db) (ended : List Ended)
        (live : List (ℕ × Log)) → IsExplained decls start ended live →
        AreBelow (1 + length ended) (lists_after decls 1 start ended) }
    ensures next { (decls : List Decl) (start : Db) (ended : List Ended) (e : Ended) →
        lists_after decls 1 start (ended ++ e ∷ [])
        ≡ lists_after_one decls (1 + length ended) (lists_after decls 1 start ended) e }
{}

/// A history stays explained, whatever happens to it.
/// `new`: nothing was entered yet, and each live session's log is empty.
/// `begin`: sessions begin, with empty logs, and live sessions are gone without an entry.
/// `step`: a live session asks for what it may ask for, and its log gets the reply of the lists
/// after all entries.
/// `uncommitted`: an entry comes that commits nothing. It found no memory, or its log is that of a
/// live session; no other session's log is changed.
/// `commit`: an entry comes that commits the log of a live session, if each session that stays live
/// has a log that is apart from it.
pub fn explained_is_kept()
    ensures new { (decls : List Decl) (start : Db) (live : List (ℕ × Log)) →
        is_db decls start ≡ true → AreBelow 1 start →
        ((k : ℕ) (l : Log) → Contains live (k, l) → l ≡ []) →
        IsExplained decls start [] live }
    ensures begin { (decls : List Decl) (start : Db) (ended : List Ended)
        (live more : List (ℕ × Log)) → IsExplained decls start ended live →
        ((k : ℕ) (l : Log) → Contains more (k, l) → Contains live (k, l) ⊎ (l ≡ [])) →
        IsExplained decls start ended more }
    ensures step { (decls : List Decl) (start : Db) (ended : List Ended)
        (live more : List (ℕ × Log)) (k : ℕ) (l : Log) (o : Operation) (r : Reply) →
        IsExplained decls start ended live → Contains live (k, l) →
        is_valid_after decls l o ≡ true →
        Replays decls (lists_after decls 1 start ended) (l ++ (o, r) ∷ []) →
        ((j : ℕ) (m : Log) → Contains more (j, m) →
        Contains live (j, m) ⊎ (m ≡ l ++ (o, r) ∷ [])) →
        IsExplained decls start ended more }
    ensures uncommitted { (decls : List Decl) (start : Db) (ended : List Ended)
        (live more : List (ℕ × Log)) (e : Ended) → IsExplained decls start ended live →
        commits e.ending ≡ false → is_log decls e.log ≡ true →
        (found_no_memory e.ending ≡ false → Contains live (e.number, e.log)) →
        ((a : Ended) → Contains ended a → a.number ≢ e.number) →
        ((k : ℕ) (l : Log) → Contains more (k, l) → Contains live (k, l)) →
        IsExplained decls start (ended ++ e ∷ []) more }
    ensures commit { (decls : List Decl) (start : Db) (ended : List Ended)
        (live more : List (ℕ × Log)) (e : Ended) → IsExplained decls start ended live →
        commits e.ending ≡ true → Contains live (e.number, e.log) →
        ((a : Ended) → Contains ended a → a.number ≢ e.number) →
        ((k : ℕ) (l : Log) → Contains more (k, l) → Contains live (k, l)) →
        ((k : ℕ) (l : Log) → Contains more (k, l) → IsApartFrom decls l e.log) →
        IsExplained decls start (ended ++ e ∷ []) more }
{}

/// A session that stays live, with a log apart from one that an entry commits, sees over the lists
/// after that entry what it saw over those before it.
/// `cursors`: its cursors have the same items, with the same ids.
/// `notes`: what its log did with each item is the same.
pub fn live_sessions_see_the_same()
    ensures cursors { (decls : List Decl) (start : Db) (ended : List Ended)
        (live : List (ℕ × Log)) (e : Ended) (k : ℕ) (l : Log) →
        IsExplained decls start ended live →
        commits e.ending ≡ true → Contains live (e.number, e.log) →
        Contains live (k, l) → IsApartFrom decls l e.log →
        (store_after_log decls (lists_after decls 1 start (ended ++ e ∷ [])) l).cursors
        ≡ (store_after_log decls (lists_after decls 1 start ended) l).cursors }
    ensures notes { (decls : List Decl) (start : Db) (ended : List Ended)
        (live : List (ℕ × Log)) (e : Ended) (k : ℕ) (l : Log) (x : Noted) →
        IsExplained decls start ended live →
        commits e.ending ≡ true → Contains live (e.number, e.log) →
        Contains live (k, l) → IsApartFrom decls l e.log →
        notes_of decls (lists_after decls 1 start (ended ++ e ∷ [])) x l
        ≡ notes_of decls (lists_after decls 1 start ended) x l }
{}
