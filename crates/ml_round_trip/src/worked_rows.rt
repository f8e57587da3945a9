//! Worked rows: texts of terms with their tokens, computed. The function does nothing: its contract
//! is the rows.
ghost use Rattle.std.specs.Prelude.{pos, negsuc, true, false, [], ◌∷◌, codes};
ghost use Rattle.ml_term.specs.Tree.{atom, compound_1, compound_2, integer, variable};
ghost use Rattle.ml_reader.specs.Lexemes.{head_tail_separator, open_list, close_paren, comma, name};
ghost use Rattle.ml_reader.specs.Lexemes.{number, open_paren, close_list, variable_lexeme};
ghost use Rattle.ml_round_trip.specs.Rows.{IsWritten};

/// Texts with their tokens and levels: lists, negative integers and the atom `-`, operators as
/// atoms and before arguments, names in quotes, brackets as a name, and a dot that is no cell.
pub fn texts_with_their_tokens()
    ensures list { IsWritten
        (compound_2 (codes ".") (variable 7) (compound_2 (codes ".") (variable 3) (variable 7)))
        (codes "[_1,_2|_1]")
        (open_list ∷ variable_lexeme 0 ∷ comma ∷ variable_lexeme 1 ∷ head_tail_separator
        ∷ variable_lexeme 0 ∷ close_list ∷ []) 1 }
    ensures nested { IsWritten (compound_2 (codes ".") (compound_1 (codes "f") (atom (codes "[]")))
        (atom (codes "[]")))
        (codes "[f([])]")
        (open_list ∷ name false (codes "f") ∷ open_paren true ∷ open_list ∷ close_list ∷ close_paren
        ∷ close_list ∷ []) 3 }
    ensures negative { IsWritten (integer (negsuc 11))
        (codes "-12")
        (name false (codes "-") ∷ number true 12 ∷ []) 0 }
    ensures minus_of { IsWritten (compound_1 (codes "-") (integer (pos 12)))
        (codes "-(12)")
        (name false (codes "-") ∷ open_paren true ∷ number true 12 ∷ close_paren ∷ []) 1 }
    ensures minus { IsWritten (compound_2 (codes "f") (atom (codes "-")) (atom (codes "a")))
        (codes "f(-,a)")
        (name false (codes "f") ∷ open_paren true ∷ name false (codes "-") ∷ comma ∷ name false
        (codes "a") ∷ close_paren ∷ []) 1 }
    ensures prefix { IsWritten (compound_1 (codes "\\+") (variable 0))
        (codes "\\+(_1)")
        (name false (codes "\\+") ∷ open_paren true ∷ variable_lexeme 0 ∷ close_paren ∷ []) 1 }
    ensures quoted { IsWritten (compound_2 (codes ",") (atom (codes ",")) (atom (codes "it's")))
        (codes "','(',','it\\'s')")
        (name true (codes ",") ∷ open_paren true ∷ name true (codes ",") ∷ comma ∷ name true
        (codes "it's") ∷ close_paren ∷ []) 1 }
    ensures brackets { IsWritten (compound_1 (codes "[]") (atom (codes "a")))
        (codes "[](a)")
        (open_list ∷ close_list ∷ open_paren true ∷ name false (codes "a") ∷ close_paren ∷ []) 1 }
    ensures dot { IsWritten (compound_1 (codes ".") (atom (codes "!")))
        (codes "'.'(!)")
        (name true (codes ".") ∷ open_paren true ∷ name false (codes "!") ∷ close_paren ∷ []) 1 }
{}
