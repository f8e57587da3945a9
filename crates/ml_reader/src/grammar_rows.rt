//! Worked rows of the grammar: what texts are read as, and where others go wrong first. The
//! function does nothing; its clauses are the rows.
ghost use Rattle.std.specs.Prelude.{◌≡◌, pos, negsuc, true, false, [], ◌∷◌, codes};
ghost use Rattle.ml_term.specs.Tree.{variable, integer, atom, compound_1, compound_2};
ghost use Rattle.ml_reader.specs.Lexemes.{name, variable_lexeme, number, open_paren, close_paren};
ghost use Rattle.ml_reader.specs.Lexemes.{open_list, close_list, open_curly, close_curly};
ghost use Rattle.ml_reader.specs.Lexemes.{head_tail_separator, comma};
ghost use Rattle.ml_reader.specs.inside.parser.Parser.{clash, unexpected};
ghost use Rattle.ml_reader.specs.inside.parser.Exact.{clauses, refused_at, ends_inside};
ghost use Rattle.ml_reader.specs.inside.parser.Rows.{reading, one, a, eq, minus, neck, stop, v};

/// Tokens with what the parser answers: clauses, or how many tokens stand before the first with
/// which no text goes on.
#[tactic(auto, unfolding(crate::specs::Operators::infix_of, crate::specs::Operators::prefix_of))]
pub fn tokens_with_their_readings()
    // a - a - a .
    ensures left_first { reading (a ∷ minus ∷ a ∷ minus ∷ a ∷ stop ∷ [])
        ≡ clauses (one (compound_2 (codes "-") (compound_2 (codes "-") v v) v) ∷ []) }
    // a = a = ..
    ensures no_chain { reading (a ∷ eq ∷ a ∷ eq ∷ a ∷ stop ∷ []) ≡ refused_at 3 clash }
    // a(:- a ..
    ensures in_argument { reading (a ∷ open_paren true ∷ neck ∷ a ∷ close_paren ∷ [])
        ≡ refused_at 3 clash }
    // a = :- = ..
    ensures behind_equals { reading (a ∷ eq ∷ neck ∷ eq ∷ a ∷ []) ≡ refused_at 3 clash }
    // a = \+ a ..
    ensures not_behind_equals { reading (a ∷ eq ∷ name false (codes "\\+") ∷ a ∷ [])
        ≡ refused_at 3 clash }
    // :- :- a ..
    ensures two_necks { reading (neck ∷ neck ∷ a ∷ []) ≡ refused_at 2 clash }
    // = a ..
    ensures no_prefix { reading (eq ∷ a ∷ []) ≡ refused_at 1 unexpected }
    // - = _ ..
    ensures minus_before_equals { reading (minus ∷ eq ∷ variable_lexeme 0 ∷ [])
        ≡ refused_at 2 unexpected }
    // [a|a, ..
    ensures after_bar { reading (open_list ∷ a ∷ head_tail_separator ∷ a ∷ comma ∷ [])
        ≡ refused_at 4 unexpected }
    // (a| ..
    ensures no_bar_in_parentheses { reading (open_paren false ∷ a ∷ head_tail_separator ∷ [])
        ≡ refused_at 2 unexpected }
    // a ',' a .
    ensures quoted_comma { reading (a ∷ name true (codes ",") ∷ a ∷ stop ∷ [])
        ≡ clauses (one (compound_2 (codes ",") v v) ∷ []) }
    // a(a ',' ..
    ensures quoted_comma_in_argument { reading (a ∷ open_paren true ∷ a
        ∷ name true (codes ",") ∷ []) ≡ refused_at 3 clash }
    // a =(a) .
    ensures infix_before_parenthesis { reading (a ∷ eq ∷ open_paren true ∷ a ∷ close_paren
        ∷ stop ∷ [])
        ≡ clauses (one (compound_2 (codes "=") v v) ∷ []) }
    // -1 .
    ensures negative { reading (minus ∷ number true 1 ∷ stop ∷ [])
        ≡ clauses (one (integer (negsuc 0)) ∷ []) }
    // - 1 .
    ensures minus_and_number { reading (minus ∷ number false 1 ∷ stop ∷ [])
        ≡ clauses (one (compound_1 (codes "-") (integer (pos 1))) ∷ []) }
    // a -1 .
    ensures less_one { reading (a ∷ minus ∷ number true 1 ∷ stop ∷ [])
        ≡ clauses (one (compound_2 (codes "-") v (integer (pos 1))) ∷ []) }
    // [](a) .
    ensures brackets_as_functor { reading (open_list ∷ close_list ∷ open_paren true ∷ a
        ∷ close_paren ∷ stop ∷ [])
        ≡ clauses (one (compound_1 (codes "[]") v) ∷ []) }
    // [] (a) ..
    ensures brackets_and_parentheses { reading (open_list ∷ close_list ∷ open_paren false ∷ [])
        ≡ refused_at 2 unexpected }
    // {a, a} .
    ensures in_braces { reading (open_curly ∷ a ∷ comma ∷ a ∷ close_curly ∷ stop ∷ [])
        ≡ clauses (one (compound_1 (codes "{}") (compound_2 (codes ",") v v)) ∷ []) }
    // - [a, - | _] .
    ensures a_list { reading (minus ∷ open_list ∷ a ∷ comma ∷ minus ∷ head_tail_separator
        ∷ variable_lexeme 0 ∷ close_list ∷ stop ∷ [])
        ≡ clauses
        (one (compound_1 (codes "-")
        (compound_2 (codes ".") v (compound_2 (codes ".") (atom (codes "-")) (variable 0)))) ∷ []) }
    // a . a = a .
    ensures two_clauses { reading (a ∷ stop ∷ a ∷ eq ∷ a ∷ stop ∷ [])
        ≡ clauses (one v ∷ one (compound_2 (codes "=") v v) ∷ []) }
    // a . ,
    ensures stray_comma { reading (a ∷ stop ∷ comma ∷ []) ≡ refused_at 2 unexpected }
    // a . a
    ensures cut_off { reading (a ∷ stop ∷ a ∷ []) ≡ ends_inside }
    // no tokens
    ensures nothing { reading [] ≡ clauses [] }
{}
