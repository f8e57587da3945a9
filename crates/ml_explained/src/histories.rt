//! Explained histories are the definition's. The function does nothing: its contract is the law.
ghost use Rattle.ml_explained.specs.Explained.{Ended, IsExplained, lists_after};
ghost use Rattle.ml_explained.specs.Told.{entries_told, IsEntryOf, order_of_entry};
ghost use Rattle.ml_explained.specs.Told.{print_of_entries};
ghost use Rattle.ml_search.specs.Db.{Db};
ghost use Rattle.ml_search.specs.History.{history};
ghost use Rattle.ml_search.specs.LawWords.{are_session_numbers, is_printable};
ghost use Rattle.ml_search.specs.Operations.{Log};
ghost use Rattle.ml_search.specs.Printed.{order_of, print_of};
ghost use Rattle.ml_search.specs.Program.{Program, Script};
ghost use Rattle.std.specs.List.{AllPairs, list_all};
ghost use Rattle.std.specs.Prelude.{◌≡◌, ◌≢◌, Bool, Contains, List, map, true, ℕ};

/// If a history is explained, and each entry is what the session of its number's script means, then
/// it is the history of the definition, for the order of its entries.
/// `history`: with the same entries, and the same lists behind the last.
/// `print`: its print is the print of that history.
/// `order`, `shown`: if scripts and numbers can be printed, its print shows the order of its
/// entries, and is the print of the history in the order that it shows.
/// `once`: no number stands twice in that order.
pub fn an_explained_history_is_the_history()
    ensures history { (program : Program) (scripts : List Script) (start : Db)
        (ended : List Ended) (live : List (ℕ × Log)) →
        IsExplained program.decls start ended live →
        ((e : Ended) → Contains ended e → IsEntryOf program scripts e) →
        history program start scripts (map order_of_entry ended)
        ≡ (entries_told program.decls 1 start ended, lists_after program.decls 1 start ended) }
    ensures print { (program : Program) (scripts : List Script) (start : Db)
        (ended : List Ended) (live : List (ℕ × Log)) →
        IsExplained program.decls start ended live →
        ((e : Ended) → Contains ended e → IsEntryOf program scripts e) →
        print_of_entries ended
        ≡ print_of (history program start scripts (map order_of_entry ended)).0 }
    ensures order { (program : Program) (scripts : List Script) (start : Db)
        (ended : List Ended) (live : List (ℕ × Log)) →
        IsExplained program.decls start ended live →
        ((e : Ended) → Contains ended e → IsEntryOf program scripts e) →
        list_all is_printable scripts ≡ true →
        are_session_numbers (map order_of_entry ended) ≡ true →
        order_of (print_of_entries ended) ≡ map order_of_entry ended }
    ensures shown { (program : Program) (scripts : List Script) (start : Db)
        (ended : List Ended) (live : List (ℕ × Log)) →
        IsExplained program.decls start ended live →
        ((e : Ended) → Contains ended e → IsEntryOf program scripts e) →
        list_all is_printable scripts ≡ true →
        are_session_numbers (map order_of_entry ended) ≡ true →
        print_of_entries ended
        ≡ print_of (history program start scripts (order_of (print_of_entries ended))).0 }
    ensures once { (program : Program) (start : Db) (ended : List Ended)
        (live : List (ℕ × Log)) →
        IsExplained program.decls start ended live →
        AllPairs (λ (a b : ℕ × Bool). a.0 ≢ b.0) (map order_of_entry ended) }
{}
