//! Worked rows: codes, and what they spell. The functions do nothing: their contracts are the rows.
ghost use Rattle.ml_compile.specs.Spells.{IsBlock, SpellsClause};
ghost use Rattle.ml_compile.specs.inside.Rows.{alternative, alternative_code, append_clause, append_code, caught, caught_code, choice, choice_code, collected, collected_code, condition, condition_code, fact, fact_code, goals, goals_code};
ghost use Rattle.ml_search.specs.Bodies.{body_from};

/// The codes of some clauses.
pub fn codes_of_clauses()
    ensures fact { SpellsClause fact_code fact }
    ensures append { SpellsClause append_code append_clause }
{}

/// The codes of some bodies.
pub fn codes_of_bodies()
    ensures goals { IsBlock goals_code 0 (body_from goals) }
    ensures alternative { IsBlock alternative_code 0 (body_from alternative) }
    ensures condition { IsBlock condition_code 0 (body_from condition) }
    ensures choice { IsBlock choice_code 0 (body_from choice) }
    ensures caught { IsBlock caught_code 0 (body_from caught) }
    ensures collected { IsBlock collected_code 0 (body_from collected) }
{}
