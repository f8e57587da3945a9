//! What a desk told: laws of the search that asks. The functions do nothing: their contracts are
//! the laws, for the machine and for the reader.
ghost use Rattle.ml_asking.specs.Requests.{has_replies, has_valid_term};
ghost use Rattle.ml_asking.specs.Asking.{AskingSearch, request, begin, finish, Conclusion, go_on};
ghost use Rattle.ml_asking.specs.Asking.{Move, turn};
ghost use Rattle.ml_asking.specs.Expand.{outcome_of, MoveIsWellFormed};
ghost use Rattle.ml_asking.specs.Leads.{Begins, IsLed, Leads, LeadsOver, lists_after, lists_by_log};
ghost use Rattle.ml_asking.specs.Leads.{outcome, store_after_log};
ghost use Rattle.ml_asking.specs.Weights.{FallsBelow, IsBelow, weight};
ghost use Rattle.ml_search.specs.Db.{Db, is_committed, is_db};
ghost use Rattle.ml_search.specs.Operations.{is_log, is_reply_after, is_valid_after, Log};
ghost use Rattle.ml_search.specs.Operations.{Operation, Reply};
ghost use Rattle.ml_search.specs.Program.{Program};
ghost use Rattle.ml_search.specs.Replay.{Replays, Store};
ghost use Rattle.ml_search.specs.Search.{search_of};
ghost use Rattle.ml_term.specs.Tree.{Tree};
ghost use Rattle.ml_term.specs.declared.declaration.Decl.{Decl};
ghost use Rattle.std.specs.Prelude.{◌++◌, ◌∷◌, ◌≡◌, [], List, true, ℕ};

/// Whatever a desk told: where its replies led a search from a log to its conclusion and a longer
/// log, take any lists that give the longer log's replies.
/// `same`: the search over these lists, as they are after the log before, has the same answers, end
/// and inferences left, and leaves the lists with the list of changes as they are after the longer
/// log.
/// `told`: if no item of the lists is uncommitted, and each operation of the log may be asked and
/// has its reply, they are the lists and changes that the log tells of.
pub fn a_search_that_asks_is_the_search()
    ensures same { (program : Program) (goal : Tree) (terms : List Tree) (number left : ℕ)
        (l k : Log) (o : Conclusion) →
        IsLed program goal terms number left l (finish o) k → (db : Db) →
        Replays program.decls db k →
        search_of program goal terms number (lists_after program.decls db l) left
        ≡ outcome o (lists_after program.decls db k) }
    ensures told { (program : Program) (goal : Tree) (terms : List Tree) (number left : ℕ)
        (l k : Log) (o : Conclusion) →
        IsLed program goal terms number left l (finish o) k →
        (db : Db) → is_db program.decls db ≡ true → is_committed db ≡ true →
        is_log program.decls k ≡ true → Replays program.decls db k →
        search_of program goal terms number (lists_by_log program.decls db l) left
        ≡ outcome o (lists_by_log program.decls db k) }
{}

/// A search that is stopped while no `findall/3` is open: the answers found so far are the first
/// answers of the search over all lists that give the log's replies. So one is stopped at its first
/// answer, or where its answers pass a limit. `told`: the lists before are those that the log tells
/// of.
pub fn answers_so_far_are_the_first()
    ensures same { (program : Program) (goal : Tree) (terms : List Tree) (number left : ℕ)
        (l k : Log) (m : AskingSearch) → m.frames ≡ [] →
        IsLed program goal terms number left l (go_on m) k → (db : Db) →
        Replays program.decls db k →
        Begins m.found
        (search_of program goal terms number (lists_after program.decls db l) left).found }
    ensures told { (program : Program) (goal : Tree) (terms : List Tree) (number left : ℕ)
        (l k : Log) (m : AskingSearch) → m.frames ≡ [] →
        IsLed program goal terms number left l (go_on m) k →
        (db : Db) → is_db program.decls db ≡ true → is_committed db ≡ true →
        is_log program.decls k ≡ true → Replays program.decls db k →
        Begins m.found
        (search_of program goal terms number (lists_by_log program.decls db l) left).found }
{}

/// Where lists without uncommitted items give the replies of a log, and each of its operations may
/// be asked and has its reply, the lists and the list of changes after it are those that the log
/// tells of: what a clause taken out by its cursor was, is what the cursor gave.
pub fn a_log_tells_of_its_changes()
    ensures { (decls : List Decl) (db : Db) (l : Log) → is_db decls db ≡ true →
        is_committed db ≡ true → is_log decls l ≡ true → Replays decls db l →
        lists_after decls db l ≡ lists_by_log decls db l }
{}

/// What a move comes to over plain lists stays the same wherever replies lead that these lists
/// give: at every moment, also where nothing is concluded.
/// `keeps`: the move is one whose choice points speak of those below them and of open cursors.
/// `begins`: the first one is, over any lists.
pub fn a_move_keeps_what_it_comes_to()
    ensures keeps { (program : Program) (v w : Move) (l k : Log) → Leads program v l w k →
        (db : Db) → Replays program.decls db k →
        MoveIsWellFormed program v (store_after_log program.decls db l) →
        outcome_of program v (store_after_log program.decls db l)
        ≡ outcome_of program w (store_after_log program.decls db k) }
    ensures begins { (program : Program) (goal : Tree) (terms : List Tree) (number left : ℕ)
        (s : Store) → MoveIsWellFormed program (go_on (begin goal terms number left)) s }
{}

/// Each operation that is asked may be asked after the log, over any replies of their kinds, if its
/// term, where it has one, is a term of the language.
/// `replies`, `grows`: a log has replies of their kinds, and stays one with such an operation and a
/// reply of its kind.
pub fn what_is_asked_may_be_asked()
    ensures asked { (program : Program) (goal : Tree) (terms : List Tree) (number left : ℕ)
        (l k : Log) (o : Operation) (f : Reply → Move) →
        IsLed program goal terms number left l (request o f) k →
        has_replies program.decls k ≡ true → has_valid_term o ≡ true →
        is_valid_after program.decls k o ≡ true }
    ensures replies { (decls : List Decl) (l : Log) → is_log decls l ≡ true →
        has_replies decls l ≡ true }
    ensures grows { (decls : List Decl) (l : Log) (o : Operation) (p : Reply) →
        is_log decls l ≡ true →
        is_valid_after decls l o ≡ true → is_reply_after decls l o p ≡ true →
        is_log decls (l ++ (o, p) ∷ []) ≡ true }
{}

/// A search that asks ends over any desk, whatever it replies, if its cursors give fewer items than
/// some number.
/// `falls`: a turn, with whatever its reply leads to, lowers the number of inferences left, or
/// keeps it and lowers the weight, as long as no item is given by a number that isn't below the
/// bound. An item that doesn't unify uses no inference, and so the bound is what ends it.
/// `ends`: from every state and log the replies of such a desk lead to a conclusion.
pub fn a_search_that_asks_ends()
    ensures falls { (program : Program) (most : ℕ) (m : AskingSearch) →
        FallsBelow most m.left (weight most m) (turn program m) }
    ensures ends { (program : Program) (desk : Log → Operation → Reply) (most : ℕ) →
        ((l : Log) (o : Operation) → IsBelow most o (desk l o)) →
        (m : AskingSearch) (l : Log) →
        (o : Conclusion) × (k : Log) × LeadsOver program desk (go_on m) l (finish o) k }
{}

/// Over all plain lists, whatever was asked of them before, a search that asks comes to its
/// conclusion, with a longer log whose replies these lists give.
pub fn plain_lists_lead_to_a_conclusion()
    ensures { (program : Program) (goal : Tree) (terms : List Tree) (number left : ℕ) (l : Log)
        (db : Db) → Replays program.decls db l →
        (o : Conclusion) × (k : Log) × IsLed program goal terms number left l (finish o) k
        × Replays program.decls db k }
{}

/// How a machine goes on from where it stands: by a turn, or by a reply to what is asked, which the
/// log has then.
pub fn a_machine_goes_on()
    ensures nothing { (program : Program) (v : Move) (l : Log) → Leads program v l v l }
    ensures turns { (program : Program) (v : Move) (l : Log) (m : AskingSearch) (k : Log) →
        Leads program v l (go_on m) k → Leads program v l (turn program m) k }
    ensures replies { (program : Program) (v : Move) (l : Log) (o : Operation) (f : Reply → Move)
        (k : Log) (p : Reply) →
        Leads program v l (request o f) k → Leads program v l (f p) (k ++ (o, p) ∷ []) }
{}
