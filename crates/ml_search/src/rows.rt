//! Worked rows: programs with what their sessions print, word for word, and terms with what they
//! become. The functions do nothing: the checker computes each row over the definitions.
ghost use Rattle.ml_search.specs.inside.RowsArithmetic.{ArithmeticRows};
ghost use Rattle.ml_search.specs.inside.RowsCatch.{CatchRows};
ghost use Rattle.ml_search.specs.inside.RowsControl.{ControlRows};
ghost use Rattle.ml_search.specs.inside.RowsEndings.{EndingRows};
ghost use Rattle.ml_search.specs.inside.RowsRelations.{RelationRows};
ghost use Rattle.ml_search.specs.inside.RowsReplay.{ReplayRows};
ghost use Rattle.ml_search.specs.inside.RowsStored.{StoredRows};
ghost use Rattle.ml_search.specs.inside.RowsTerms.{TermRows};

/// Values, results out of range, and what raises.
pub fn arithmetic_rows()
    ensures { ArithmeticRows }
{}

/// Conjunctions, choices, cuts, conditions, negation, calls and `findall/3`.
pub fn control_rows()
    ensures { ControlRows }
{}

/// Relations in the order of their keys, changes of them, and budgets.
pub fn relation_rows()
    ensures { RelationRows }
{}

/// Stored clauses: their order, what a call sees, `retract/1`, and what raises.
pub fn stored_rows()
    ensures { StoredRows }
{}

/// `catch/3` and `throw/1`, and goals that raise.
pub fn catch_rows()
    ensures { CatchRows }
{}

/// Tests and order of terms, terms taken apart and made, and terms that are shared and large.
pub fn term_rows()
    ensures { TermRows }
{}

/// How sessions end, and the order that a print shows.
pub fn ending_rows()
    ensures { EndingRows }
{}

/// Logs over plain lists: the replies, what the log tells, and the lists after it.
pub fn replay_rows()
    ensures { ReplayRows }
{}
