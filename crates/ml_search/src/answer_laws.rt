//! How the lines of answers are written: laws for one that writes an answer as soon as it is found.
//! The functions do nothing: their contracts are the laws, for the layers above and for the reader.
ghost use Rattle.ml_search.specs.LinesInTurn.{further_lines, one_line_more};
ghost use Rattle.ml_search.specs.Program.{Goal};
ghost use Rattle.ml_search.specs.Session.{answer_lines};
ghost use Rattle.ml_term.specs.Tree.{Tree};
ghost use Rattle.std.specs.Prelude.{◌++◌, ◌∷◌, ◌≡◌, [], List, None, Option, Some, ℕ};

/// The lines of answers are written one after another, and end where a term is raised.
/// `further`: the lines of some answers and of others behind them.
/// `one_more`: where nothing was raised, one answer adds its line, or a limit is passed.
/// `stops`: where a term was raised, no answer after it changes anything.
pub fn answers_are_written_in_turn()
    ensures further { (g : Goal) (found others : List (List Tree)) (bytes : ℕ) →
        answer_lines g (found ++ others) bytes
        ≡ further_lines g (answer_lines g found bytes) others }
    ensures one_more { (g : Goal) (found : List (List Tree)) (ts : List Tree) (bytes : ℕ) →
        (answer_lines g found bytes).fault ≡ None →
        answer_lines g (found ++ ts ∷ []) bytes ≡ one_line_more g (answer_lines g found bytes) ts }
    ensures stops { (g : Goal) (found others : List (List Tree)) (bytes : ℕ) (t : Tree) →
        (answer_lines g found bytes).fault ≡ Some t →
        answer_lines g (found ++ others) bytes ≡ answer_lines g found bytes }
{}
