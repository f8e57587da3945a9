//! What stays true of plain lists. The functions do nothing: their contracts are the laws.
ghost use Rattle.ml_isolation.specs.Places.{AreBelow};
ghost use Rattle.ml_search.specs.Db.{at, Db, is_committed, is_db, Item, mine, rises, terms};
ghost use Rattle.ml_search.specs.History.{commit_at};
ghost use Rattle.ml_search.specs.Loading.{are_items, first_db};
ghost use Rattle.ml_search.specs.Operations.{is_log, Log};
ghost use Rattle.ml_search.specs.Replay.{db_after_log, Replays};
ghost use Rattle.ml_term.specs.Tree.{Tree};
ghost use Rattle.ml_term.specs.declared.declaration.Decl.{Decl};
ghost use Rattle.std.specs.Cmp.{IsTotalOrder};
ghost use Rattle.std.specs.List.{AllPairs};
ghost use Rattle.std.specs.Prelude.{◌↔◌, ◌≡◌, Contains, List, suc, true, ℕ};
ghost use Rattle.std.specs.declared.cmp.Ordering.{Ordering};
ghost use Rattle.std.specs.declared.cmp.Ordering.TheVariants.{Less};

/// Lists stay lists that their declarations may have.
/// `first`, `first_committed`, `first_below`: loaded lists are lists, and no item of them is
/// uncommitted; their items have place 0.
/// `kept`: what a log of operations that may be asked, with their replies, leaves of such lists are
/// such lists. `committed`, `all_committed`, `below`: also where they are committed at a place that
/// is later than those of all items; no item is uncommitted then, and none has a later place.
/// `uncommitted`, `grows`: lists without own items stay as they are where nothing is committed, and
/// each later place is later than those of their items too.
pub fn lists_stay_lists()
    ensures first { (decls : List Decl) (items : List (ℕ × Tree)) →
        are_items decls items ≡ true → is_db decls (first_db decls items) ≡ true }
    ensures first_committed { (decls : List Decl) (items : List (ℕ × Tree)) →
        is_committed (first_db decls items) ≡ true }
    ensures first_below { (decls : List Decl) (items : List (ℕ × Tree)) →
        AreBelow 1 (first_db decls items) }
    ensures kept { (decls : List Decl) (db : Db) (l : Log) → is_db decls db ≡ true →
        is_committed db ≡ true → is_log decls l ≡ true → Replays decls db l →
        is_db decls (db_after_log decls db l mine) ≡ true }
    ensures committed { (decls : List Decl) (db : Db) (l : Log) (k : ℕ) → is_db decls db ≡ true →
        is_committed db ≡ true → AreBelow k db → is_log decls l ≡ true → Replays decls db l →
        is_db decls (commit_at k (db_after_log decls db l mine)) ≡ true }
    ensures all_committed { (k : ℕ) (db : Db) → is_committed (commit_at k db) ≡ true }
    ensures below { (decls : List Decl) (db : Db) (l : Log) (k : ℕ) → is_db decls db ≡ true →
        is_committed db ≡ true → AreBelow k db → is_log decls l ≡ true → Replays decls db l →
        AreBelow (suc k) (commit_at k (db_after_log decls db l mine)) }
    ensures uncommitted { (k : ℕ) (db : Db) → is_committed db ≡ true → commit_at k db ≡ db }
    ensures grows { (k : ℕ) (db : Db) → AreBelow k db → AreBelow (suc k) db }
{}

/// What a log changes in lists, with the place of an entry for what it puts, is what it changes
/// with none yet, committed at that place, if that is later than those of all items. So the items
/// that a session left, and those that an entry's log tells of, are the same.
/// `kept`: they are lists that their declarations may have.
pub fn a_commit_is_what_the_log_changed()
    ensures same { (decls : List Decl) (db : Db) (l : Log) (k : ℕ) → AreBelow k db →
        commit_at k (db_after_log decls db l mine) ≡ db_after_log decls db l (at k) }
    ensures kept { (decls : List Decl) (db : Db) (l : Log) (k : ℕ) → is_db decls db ≡ true →
        AreBelow k db → is_log decls l ≡ true → Replays decls db l →
        is_db decls (db_after_log decls db l (at k)) ≡ true }
{}

/// Two lists that rise strictly in one total order and have the same elements are one list.
/// `terms`, `items`: lists of terms, and of items. `tuples`: the lists of a relation have the same
/// tuples in the same order, if they have the same tuples; their ids may differ.
pub fn lists_in_one_order_are_one()
    ensures terms { (cmp : Tree → Tree → Ordering) → IsTotalOrder cmp → (ts us : List Tree) →
        AllPairs (λ t u. cmp t u ≡ Less) ts → AllPairs (λ t u. cmp t u ≡ Less) us →
        ((t : Tree) → Contains ts t ↔ Contains us t) → ts ≡ us }
    ensures items { (cmp : Item → Item → Ordering) → IsTotalOrder cmp → (is js : List Item) →
        AllPairs (λ i j. cmp i j ≡ Less) is → AllPairs (λ i j. cmp i j ≡ Less) js →
        ((i : Item) → Contains is i ↔ Contains js i) → is ≡ js }
    ensures tuples { (keys : List ℕ) (is js : List Item) → rises keys is ≡ true →
        rises keys js ≡ true → ((t : Tree) → Contains (terms is) t ↔ Contains (terms js) t) →
        terms is ≡ terms js }
{}
