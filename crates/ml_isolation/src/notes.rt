//! What a session sees at each place of its log. The functions do nothing: their contracts are the
//! laws.
ghost use Rattle.ml_asking.specs.Leads.{store_after_log};
ghost use Rattle.ml_isolation.specs.Logs.{IsClauseList, IsRelation};
ghost use Rattle.ml_isolation.specs.Notes.{clause, flag_at, Noted, noted_by, notes_of};
ghost use Rattle.ml_isolation.specs.Notes.{progress_after_log, tuple};
ghost use Rattle.ml_search.specs.Changes.{has_term, list_for};
ghost use Rattle.ml_search.specs.Db.{Db, Id, is_committed, is_db, is_placed, Item, items, mine};
ghost use Rattle.ml_search.specs.Db.{with_id};
ghost use Rattle.ml_search.specs.LogChanges.{log_changes};
ghost use Rattle.ml_search.specs.Operations.{cursor, is_log, Log, next, Operation, opens};
ghost use Rattle.ml_search.specs.Operations.{Reply};
ghost use Rattle.ml_search.specs.Replay.{cursor_over, db_after_log, item_reply, Replays};
ghost use Rattle.ml_term.specs.Tree.{Tree};
ghost use Rattle.ml_term.specs.declared.declaration.Decl.{Decl};
ghost use Rattle.std.specs.Option.{option_map};
ghost use Rattle.std.specs.List.{cons_option};
ghost use Rattle.std.specs.Prelude.{◌++◌, ◌∷◌, ◌≡◌, ◌<◌, [], Contains, is_some, length, List};
ghost use Rattle.std.specs.Prelude.{slice_get, Some, take, true, ℕ};

/// At each place of a log the items that are there are told by those that were there before it and
/// by what the log did with each.
/// `tuples`, `clauses`: a tuple, and a clause by its id, is there where the last note below the
/// place says so, or was there before where there is none.
/// `grows`: one more operation notes what it does, at the place of the log where it stands.
/// `by_log`: what a log did with a tuple is the same over all lists.
/// `old`, `own`: an item that was committed before is there as it was, and an own one has the term
/// that the change of its number put.
pub fn notes_tell_the_lists()
    ensures tuples { (decls : List Decl) (db : Db) (l : Log) (n : ℕ) (t : Tree) →
        is_db decls db ≡ true → is_log decls l ≡ true → IsRelation decls (list_for decls t) →
        has_term t (items (db_after_log decls db (take n l) mine) (list_for decls t))
        ≡ flag_at n (has_term t (items db (list_for decls t))) (notes_of decls db (tuple t) l) }
    ensures clauses { (decls : List Decl) (db : Db) (l : Log) (n d : ℕ) (a : Id) →
        is_db decls db ≡ true → is_log decls l ≡ true → IsClauseList decls d →
        is_some (with_id a (items (db_after_log decls db (take n l) mine) d))
        ≡ flag_at n (is_some (with_id a (items db d))) (notes_of decls db (clause d a) l) }
    ensures grows { (decls : List Decl) (db : Db) (x : Noted) (l : Log) (e : Operation × Reply) →
        notes_of decls db x (l ++ e ∷ [])
        ≡ notes_of decls db x l
        ++ cons_option
        (option_map (λ flag. (length l, flag))
        (noted_by decls x (progress_after_log decls db l) e)) [] }
    ensures by_log { (decls : List Decl) (db eb : Db) (t : Tree) (l : Log) →
        notes_of decls db (tuple t) l ≡ notes_of decls eb (tuple t) l }
    ensures old { (decls : List Decl) (db : Db) (l : Log) (d : ℕ) (i : Item) →
        is_committed db ≡ true → is_log decls l ≡ true →
        Contains (items (db_after_log decls db l mine) d) i → is_placed i.id.place ≡ true →
        Contains (items db d) i }
    ensures own { (decls : List Decl) (db : Db) (l : Log) (d : ℕ) (i : Item) →
        is_committed db ≡ true → is_log decls l ≡ true →
        Contains (items (db_after_log decls db l mine) d) i → i.id.place ≡ mine →
        option_map (λ c. c.term) (slice_get (log_changes l) i.id.change) ≡ Some i.term }
{}

/// A cursor has the items that its pattern met in the list as the log before its opening left it.
/// `opened`: it has them at every later place of the log, whatever the log changes.
/// `given`: and its item of a number is what is replied to whoever asks for it.
pub fn a_cursor_is_the_list_at_its_opening()
    ensures opened { (decls : List Decl) (db : Db) (l : Log) (n m c d : ℕ) (p : Tree) →
        Replays decls db l → slice_get l n ≡ Some (opens d p, cursor c) → n < m →
        slice_get (store_after_log decls db (take m l)).cursors c
        ≡ Some (cursor_over decls d p (db_after_log decls db (take n l) mine)) }
    ensures given { (decls : List Decl) (db : Db) (l : Log) (n m c i d : ℕ) (p : Tree)
        (r : Reply) → Replays decls db l → slice_get l n ≡ Some (opens d p, cursor c) →
        slice_get l m ≡ Some (next c i, r) → n < m →
        r ≡ item_reply
        (slice_get (cursor_over decls d p (db_after_log decls db (take n l) mine)).members i) }
{}
