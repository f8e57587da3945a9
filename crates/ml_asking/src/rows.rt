//! Worked rows: goals with what they ask of plain lists, reply by reply, and what they come to. The
//! functions do nothing: the checker computes each row over the definitions.
ghost use Rattle.ml_asking.specs.inside.AskingRows.{AskingRows};

/// Cuts, balls, changes and budgets while cursors are open: what is asked, the replies, and the
/// same outcome as that of the search over lists.
pub fn asking_rows()
    ensures { AskingRows }
{}
