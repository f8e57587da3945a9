//! Worked rows of lists and of logs, with what comes of them. The functions do nothing: the checker
//! computes each row over the definitions.
ghost use Rattle.ml_isolation.specs.inside.ListRows.{ListRows};
ghost use Rattle.ml_isolation.specs.inside.LogRows.{LogRows};

/// What is loaded, what logs leave of it, and what is committed at which place: clauses put first
/// and last, one taken out by its cursor, and tuples that come and go.
pub fn list_rows()
    ensures { ListRows }
{}

/// What logs ask for and write, which of them meet and what comes of it, what a cursor has, and
/// what is noted.
pub fn log_rows()
    ensures { LogRows }
{}
