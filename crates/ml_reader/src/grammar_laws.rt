//! Laws of the grammar and of texts. Each function does nothing; its contract is the law.
ghost use Rattle.std.specs.Prelude.{◌≡◌, ◌<◌, ◌^◌, ◌⊎◌, ℕ, List, [], length};
ghost use Rattle.std.specs.List.{AllByRecursion};
ghost use Rattle.ml_reader.specs.inside.parser.Exact.{Exact, answer};
ghost use Rattle.ml_reader.specs.Faults.{HasFault, HasFirstFault};
ghost use Rattle.ml_reader.specs.Lexemes.{Lexeme, ReadClause};
ghost use Rattle.ml_reader.specs.inside.parser.Parser.{root, expect_term};
ghost use Rattle.ml_reader.specs.Texts.{IsRead, IsWellRead};
ghost use Rattle.ml_reader.specs.declared.fault.ReadFault.{ReadFault};

use ml_token::token_laws::tokens_stand_in_their_text;

/// The automaton reads exactly the texts of the grammar, each as its only list of clauses, and
/// stops at the first token with which no text goes on. There it tells whether some text would go
/// on if no priority counted.
pub fn the_parser_is_exact()
    ensures { (xs : List Lexeme) → Exact xs (answer 0 (expect_term (root [])) xs) }
{}

/// A text is at most one list of clauses.
pub fn a_text_has_one_reading()
    ensures { (bytes : List ℕ) (cs ds : List ReadClause) → IsRead bytes cs → IsRead bytes ds
        → cs ≡ ds }
{}

/// A text has at most one first fault.
pub fn a_text_has_one_first_fault()
    ensures { (bytes : List ℕ) (f g : ReadFault) → HasFirstFault bytes f → HasFirstFault bytes g
        → f ≡ g }
{
    tokens_stand_in_their_text();
}

/// A text that is read has no fault, so none is read and has a first fault.
pub fn a_text_that_is_read_has_no_fault()
    ensures { (bytes : List ℕ) (cs : List ReadClause) (met : ℕ) (f : ReadFault) → IsRead bytes cs
        → HasFault bytes met f → ⊥ }
{
    tokens_stand_in_their_text();
}

/// A text of fewer than 4294967296 bytes is read or has a first fault.
pub fn a_text_is_read_or_has_a_first_fault()
    ensures { (bytes : List ℕ) → length bytes < 2 ^ 32 → ((cs : List ReadClause) × IsRead bytes cs)
        ⊎ ((f : ReadFault) × HasFirstFault bytes f) }
{
    tokens_stand_in_their_text();
}

/// Each clause that is read is a term of the language, with its variables numbered from 0 by first
/// place and their names.
pub fn what_is_read_is_well_read()
    ensures { (bytes : List ℕ) (cs : List ReadClause) → IsRead bytes cs
        → AllByRecursion IsWellRead cs }
{
    tokens_stand_in_their_text();
}
