//! Worked rows of splits: what the rule gives, computed. The functions do nothing: their contracts
//! are the rows.
ghost use Rattle.std.specs.Prelude.{◌≡◌, [], ◌∷◌, ◌++◌, true};
ghost use Rattle.ml_split.specs.Rows.{clause_keys, small_numbers, tuple_keys, variable_key};
ghost use Rattle.ml_split.specs.Splitting.{IsSplit, keys_under};

/// The 25 tuples p(0) to p(24) are split at 60 bits, 011 and 57 zeros, with which p(0) to p(15)
/// begin.
pub fn first_split()
    ensures prefix { IsSplit (tuple_keys 0 25) [] (small_numbers 57) }
    ensures moved { keys_under (small_numbers 57) (tuple_keys 0 25) ≡ tuple_keys 0 16 }
{}

/// What is left of these, p(16) to p(24), with p(32) to p(47) is split at 59 bits, 011, 55 zeros
/// and 1, with which p(32) to p(47) begin.
pub fn second_split()
    ensures prefix { IsSplit (tuple_keys 16 9 ++ tuple_keys 32 16) []
        (small_numbers 55 ++ true ∷ []) }
    ensures moved { keys_under (small_numbers 55 ++ true ∷ []) (tuple_keys 16 9 ++ tuple_keys 32 16)
        ≡ tuple_keys 32 16 }
{}

/// The 31 tuples p(9) to p(24) and p(32) to p(46), which meet where a thin region is merged into
/// its parent, are split at 59 bits, 011 and 56 zeros, with which p(9) to p(24) begin.
pub fn split_after_a_merge()
    ensures prefix { IsSplit (tuple_keys 9 16 ++ tuple_keys 32 15) [] (small_numbers 56) }
    ensures moved { keys_under (small_numbers 56) (tuple_keys 9 16 ++ tuple_keys 32 15)
        ≡ tuple_keys 9 16 }
{}

/// The stored clauses c(X) and c(0) to c(23) are split at the same place as tuples. The clause with
/// a variable stays in the old region.
pub fn split_of_clauses()
    ensures prefix { IsSplit (variable_key ∷ clause_keys 0 24) [] (small_numbers 57) }
    ensures moved { keys_under (small_numbers 57) (variable_key ∷ clause_keys 0 24)
        ≡ clause_keys 0 16 }
{}
