//! What the end of a search raises.
ghost use Rattle.std.specs.Prelude.{◌≡◌, IfOk, option_map};
ghost use Rattle.ml_machine.specs.Steps.{end_of};
ghost use Rattle.ml_search.specs.Errors.{formal_term};
ghost use Rattle.ml_search.specs.Session.{error_of_end};
ghost use Rattle.ml_solve.specs.inside.Searching.{EndsSo};
ghost use Rattle.ml_term.specs.Seen.{seen};

use crate::goal_end::GoalEnd;
use ml_machine::Ended;
use ml_raise::{Limit, resource_error};
use ml_term::Term;
use std::alloc::{AllocError, Global};

/// What a goal comes to where its search ended after so many answers.
pub(crate) fn goal_end(alloc: Global, ended: &Ended, count: u32) -> Result<GoalEnd, AllocError>
    ensures { IfOk result (λ end. EndsSo ended.now count end) }
{
    match raised_at_end(alloc, ended)? {
        Some(term) => Ok(GoalEnd::Raised(term)),
        None => Ok(GoalEnd::Finished(count)),
    }
}

/// The term that the end of a search raises, if it raises one.
pub(crate) fn raised_at_end(alloc: Global, ended: &Ended) -> Result<Option<Term>, AllocError>
    ensures { IfOk result (λ raised. option_map seen raised ≡ error_of_end (end_of ended.now)) }
{
    match ended {
        Ended::Finished => Ok(None),
        Ended::Ball(ball) => {
            let term = formal_term(alloc, ball)?;
            Ok(Some(term))
        }
        Ended::Exhausted => {
            let term = resource_error(alloc, Limit::Inferences)?;
            Ok(Some(term))
        }
    }
}

// What is printed of a ball: of an error its first argument alone.
fn formal_term(alloc: Global, ball: &Term) -> Result<Term, AllocError>
    ensures { IfOk result (λ term. seen term ≡ formal_term (seen ball.now)) }
{
    let Term::Cmp(name, args) = ball else {
        return ball.copy_of(alloc);
    };
    let args = args.as_slice();
    if args.len() != 2 {
        return ball.copy_of(alloc);
    }
    if name.as_slice() == b"error".as_slice() {
        return args[0].copy_of(alloc);
    }
    ball.copy_of(alloc)
}
