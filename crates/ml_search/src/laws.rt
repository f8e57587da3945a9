//! Laws of the definitions. The functions do nothing: their contracts are the laws, for the layers
//! above and for the reader.
ghost use Rattle.ml_search.specs.Bodies.{Body, body_size, call, in_body, body_from};
ghost use Rattle.ml_search.specs.Changes.{Lists};
ghost use Rattle.ml_search.specs.Db.{Db, is_committed, mine};
ghost use Rattle.ml_search.specs.History.{history};
ghost use Rattle.ml_search.specs.Operations.{Log, Operation};
ghost use Rattle.ml_search.specs.Printed.{order_of, print_of};
ghost use Rattle.ml_search.specs.Program.{Program, Script};
ghost use Rattle.ml_search.specs.Replay.{first_store, db_after_log, Replays, replies, Store};
ghost use Rattle.ml_search.specs.Replay.{store_after};
ghost use Rattle.ml_search.specs.Search.{branches_size, outcome_of_next, Outcome, search_from};
ghost use Rattle.ml_search.specs.Search.{State, turn};
ghost use Rattle.ml_search.specs.LawWords.{are_session_numbers, is_printable, with_more_inferences};
ghost use Rattle.ml_search.specs.LawWords.{outline, ran_out, order_entry, outcome_with_more};
ghost use Rattle.ml_term.specs.Falling.{AlwaysFalls};
ghost use Rattle.ml_term.specs.Tree.{Tree, variable};
ghost use Rattle.ml_term.specs.declared.declaration.Decl.{Decl};
ghost use Rattle.std.specs.List.{list_all};
ghost use Rattle.std.specs.Prelude.{◌++◌, ◌≡◌, Bool, false, List, map, true, ℕ};

/// The search ends for every input, and is what its turns lead to.
/// `falls`: each turn lowers the number of inferences left, or keeps it and lowers the size of the
/// branches.
/// `goes`: the search gives what its first turn leads to. `alone`: nothing else does so from each
/// state.
pub fn the_search_ends()
    ensures falls { (program : Program) →
        AlwaysFalls (λ s. s.left) (λ s. branches_size s.branches) (λ o. o.left) (turn program) }
    ensures goes { (program : Program) (s : State) →
        search_from program s ≡ outcome_of_next (search_from program) (turn program s) }
    ensures alone { (program : Program) (f : State → Outcome) →
        ((s : State) → f s ≡ outcome_of_next f (turn program s)) → (s : State) →
        f s ≡ search_from program s }
{}

/// Whatever a map puts in place of its variables, a body keeps its control constructs, the names of
/// its goals, and its size. A variable that stands as a body is a call, whatever it becomes.
pub fn a_map_keeps_a_body()
    ensures same { (f : Tree → Tree) (b : Body) → outline (in_body f b) ≡ outline b }
    ensures size { (f : Tree → Tree) (b : Body) → body_size (in_body f b) ≡ body_size b }
    ensures called { (f : Tree → Tree) (n : ℕ) →
        in_body f (body_from (variable n)) ≡ call (f (variable n)) }
{}

/// Where a search doesn't run out of inferences, it gives the same with more of them.
pub fn more_inferences_change_nothing()
    ensures { (program : Program) (k : ℕ) (s : State) →
        ran_out (search_from program s).end ≡ false →
        search_from program (with_more_inferences k s)
        ≡ outcome_with_more k (search_from program s) }
{}

/// What plain lists reply to some operations doesn't depend on those after them.
/// `parts`: the replies to some operations and more are those to the first, and then those to the
/// others on what the first left.
/// `beginning`: lists that give a log's replies give those of its beginning.
pub fn replies_depend_on_the_past_alone()
    ensures parts { (decls : List Decl) (os ps : List Operation) (s : Store) →
        replies decls (os ++ ps) s
        ≡ replies decls os s ++ replies decls ps (store_after decls os s) }
    ensures after { (decls : List Decl) (os ps : List Operation) (s : Store) →
        store_after decls (os ++ ps) s ≡ store_after decls ps (store_after decls os s) }
    ensures beginning { (decls : List Decl) (db : Db) (l k : Log) → Replays decls db (l ++ k) →
        Replays decls db l }
{}

/// Where plain lists give a log's replies, the changes that the log tells of make of them what the
/// operations make of them.
pub fn a_log_changes_the_lists_that_replay_it()
    ensures { (decls : List Decl) (db : Db) (l : Log) → Replays decls db l →
        db_after_log decls db l mine
        ≡ (store_after decls (map (λ e. e.0) l) (first_store decls db)).lists.db }
{}

/// A history that begins with lists of which every item was committed or loaded ends with such
/// lists.
pub fn a_history_commits_its_items()
    ensures { (program : Program) (db : Db) (scripts : List Script) (order : List (ℕ × Bool)) →
        is_committed db ≡ true →
        is_committed (history program db scripts order).1 ≡ true }
{}

/// A print shows the order of its entries.
/// `order`: the lines of a history show for each entry its number and whether it was out of memory,
/// in their order, and nothing else.
/// `beginning`: what the beginning of some bytes shows is a beginning of what they show.
pub fn a_print_shows_its_order()
    ensures order { (program : Program) (db : Db) (scripts : List Script)
        (order : List (ℕ × Bool)) →
        list_all is_printable scripts ≡ true → are_session_numbers order ≡ true →
        order_of (print_of (history program db scripts order).0)
        ≡ map order_entry (history program db scripts order).0 }
    ensures beginning { (xs ys : List ℕ) →
        (os : List (ℕ × Bool)) × (order_of (xs ++ ys) ≡ order_of xs ++ os) }
{}
