//! Laws of canonical text. Each function does nothing; its contract is the law.
ghost use Rattle.std.specs.Prelude.{◌≡◌, ◌≤◌, IsTrue, List, [], ◌∷◌, ◌++◌, codes, true};
ghost use Rattle.ml_term.specs.Tree.{Tree, nodes, rename};
ghost use Rattle.ml_term.specs.Valid.{is_valid};
ghost use Rattle.ml_term.specs.Text.{text_of};
ghost use Rattle.ml_reader.specs.Lexemes.{Lexeme, ReadClause, end};
ghost use Rattle.ml_reader.specs.Tokens.{Ends, text_start};
ghost use Rattle.ml_reader.specs.Grammar.{IsText};
ghost use Rattle.ml_reader.specs.Levels.{most_levels_of_text};
ghost use Rattle.ml_reader.specs.Reading.{Reads};
ghost use Rattle.ml_reader.specs.Texts.{IsRead};
ghost use Rattle.ml_term.specs.Limits.{max_term_nodes};
ghost use Rattle.ml_reader.specs.Limits.{max_text_levels};
ghost use Rattle.ml_round_trip.specs.CanonicalTokens.{tokens_of};
ghost use Rattle.ml_round_trip.specs.ReadBack.{clause_end_of, read_back};
ghost use Rattle.ml_round_trip.specs.TextLevels.{text_levels};

/// The canonical text of a term of at most `max_term_nodes` nodes, followed by a space and a full
/// stop, is a text of one clause: the term, whose variables are numbered from 0 by first place and
/// named `_1`, `_2` and so on. `tokens`: the text's tokens are those that `tokens_of` makes of the
/// term, and an end. `grammar`: the limits on levels, tokens, nodes and numbers aside. `read`:
/// within all limits, where the text opens at most `max_text_levels` levels at once. `only`: within
/// the limits it is a text of nothing else, and where it opens more levels it is a text of nothing.
/// `levels`: however the grammar derives its tokens, as many levels are open at once as
/// `text_levels` counts on the term.
pub fn a_term_is_read_from_its_text()
    ensures tokens { (t : Tree) → IsTrue (is_valid t) → nodes t ≤ max_term_nodes →
        Ends (text_of t [] ++ codes " .") text_start (tokens_of t (end (clause_end_of t) ∷ [])) }
    ensures grammar { (t : Tree) → IsTrue (is_valid t) → nodes t ≤ max_term_nodes →
        Reads (text_of t [] ++ codes " .") (read_back t ∷ []) }
    ensures read { (t : Tree) → IsTrue (is_valid t) → nodes t ≤ max_term_nodes
        → text_levels t ≤ max_text_levels →
        IsRead (text_of t [] ++ codes " .") (read_back t ∷ []) }
    ensures only { (t : Tree) (clauses : List ReadClause) → IsTrue (is_valid t)
        → nodes t ≤ max_term_nodes →
        IsRead (text_of t [] ++ codes " .") clauses → (clauses ≡ read_back t ∷ [])
        × (text_levels t ≤ max_text_levels) }
    ensures levels { (t : Tree) (tokens : List Lexeme) (clauses : List ReadClause)
        → IsTrue (is_valid t) → nodes t ≤ max_term_nodes →
        Ends (text_of t [] ++ codes " .") text_start tokens
        → (derivation : IsText true tokens clauses) →
        most_levels_of_text derivation ≡ text_levels t }
{}

/// Terms of at most `max_term_nodes` nodes that have one text are the same, up to the numbers of
/// their variables.
pub fn texts_tell_terms_apart()
    ensures { (t u : Tree) → IsTrue (is_valid t) → IsTrue (is_valid u) → nodes t ≤ max_term_nodes
        → nodes u ≤ max_term_nodes →
        text_of t [] ≡ text_of u [] → rename 0 t ≡ rename 0 u }
{}
