//! Worked rows of histories, with what comes of them. The function does nothing: the checker
//! computes each row over the definitions.
ghost use Rattle.ml_explained.specs.inside.HistoryRows.{HistoryRows};

/// What entries with their logs leave of lists, that such a history is explained, and that the
/// definition's history, its print and its order are those that the logs tell.
pub fn history_rows()
    ensures { HistoryRows }
{}
