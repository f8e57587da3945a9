//! Logs that do not meet. The function does nothing: its contract is the law.
ghost use Rattle.ml_asking.specs.Leads.{store_after_log};
ghost use Rattle.ml_isolation.specs.Logs.{IsApartFrom};
ghost use Rattle.ml_isolation.specs.Notes.{Noted, notes_of};
ghost use Rattle.ml_isolation.specs.Places.{AreBelow};
ghost use Rattle.ml_search.specs.Db.{at, Db, is_db};
ghost use Rattle.ml_search.specs.Operations.{is_log, Log};
ghost use Rattle.ml_search.specs.Replay.{db_after_log, Replays};
ghost use Rattle.ml_term.specs.declared.declaration.Decl.{Decl};
ghost use Rattle.std.specs.Prelude.{◌≡◌, List, true, ℕ};

/// Lists give the replies of one's own log and of another one. If what the other one wrote concerns
/// nothing that one's own asked for, then the lists that the other one has changed, committed at a
/// place later than those of all items, still give the replies of one's own.
/// `cursors`, `notes`: and one's cursors over them have the same items, with the same ids, and what
/// one's log did with each item is the same.
pub fn logs_that_do_not_meet()
    ensures replayed { (decls : List Decl) (db : Db) (own other : Log) (k : ℕ) →
        is_db decls db ≡ true → AreBelow k db →
        is_log decls own ≡ true → is_log decls other ≡ true →
        Replays decls db own → Replays decls db other → IsApartFrom decls own other →
        Replays decls (db_after_log decls db other (at k)) own }
    ensures cursors { (decls : List Decl) (db : Db) (own other : Log) (k : ℕ) →
        is_db decls db ≡ true → AreBelow k db →
        is_log decls own ≡ true → is_log decls other ≡ true →
        Replays decls db own → Replays decls db other → IsApartFrom decls own other →
        (store_after_log decls (db_after_log decls db other (at k)) own).cursors
        ≡ (store_after_log decls db own).cursors }
    ensures notes { (decls : List Decl) (db : Db) (own other : Log) (k : ℕ) (x : Noted) →
        is_db decls db ≡ true → AreBelow k db →
        is_log decls own ≡ true → is_log decls other ≡ true →
        Replays decls db own → Replays decls db other → IsApartFrom decls own other →
        notes_of decls (db_after_log decls db other (at k)) x own ≡ notes_of decls db x own }
{}
