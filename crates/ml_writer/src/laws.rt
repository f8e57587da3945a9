//! A law of the definitions. The function does nothing: its contract is the law, for the layers
//! above.
ghost use Rattle.std.specs.Prelude.{◌≡◌, ℕ, List, map};
ghost use Rattle.ml_term.specs.Tree.{Tree};
ghost use Rattle.ml_search.specs.Program.{Goal};
ghost use Rattle.ml_search.specs.Session.{answer_line, shown_names};
ghost use Rattle.ml_writer.specs.AnswerText.{Bindings, line_of_answer, terms_of};

/// The line of an answer is that of its goal, where the names are those of the goal's shown
/// variables.
pub fn an_answer_has_its_goals_line()
    ensures { (g : Goal) (bs : Bindings) → map (λ b. b.0) bs ≡ map (λ e. e.0) (shown_names g)
        → line_of_answer bs ≡ answer_line g (terms_of bs) }
{}
