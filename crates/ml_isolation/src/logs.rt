//! Logs that lists reply to. The functions do nothing: their contracts are the laws.
ghost use Rattle.ml_asking.specs.Leads.{store_after_log};
ghost use Rattle.ml_search.specs.Db.{Db, is_committed, is_db};
ghost use Rattle.ml_search.specs.Operations.{is_log, is_reply_after, is_valid_after, Log};
ghost use Rattle.ml_search.specs.Operations.{Operation};
ghost use Rattle.ml_search.specs.Replay.{Replays, reply};
ghost use Rattle.ml_term.specs.declared.declaration.Decl.{Decl};
ghost use Rattle.std.specs.Prelude.{◌++◌, ◌∷◌, ◌≡◌, [], List, true};

/// A log grows by an operation and by what the present lists reply to it.
/// `replayed`: lists that give a log's replies give those of the longer log.
/// `kind`, `lawful`: where each operation of the log may be asked, the reply is of the kind that
/// the operation has after the log; and where the operation may be asked, the longer log is one of
/// operations that may be asked, with their replies.
pub fn a_log_grows()
    ensures replayed { (decls : List Decl) (db : Db) (l : Log) (o : Operation) →
        Replays decls db l →
        Replays decls db (l ++ (o, (reply decls o (store_after_log decls db l)).0) ∷ []) }
    ensures kind { (decls : List Decl) (db : Db) (l : Log) (o : Operation) → is_db decls db ≡ true →
        is_committed db ≡ true → is_log decls l ≡ true →
        is_reply_after decls l o (reply decls o (store_after_log decls db l)).0 ≡ true }
    ensures lawful { (decls : List Decl) (db : Db) (l : Log) (o : Operation) →
        is_db decls db ≡ true → is_committed db ≡ true → is_log decls l ≡ true →
        is_valid_after decls l o ≡ true →
        is_log decls (l ++ (o, (reply decls o (store_after_log decls db l)).0) ∷ []) ≡ true }
{}
