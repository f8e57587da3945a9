//! What stands of a script behind some of its clauses.
ghost use Rattle.std.specs.Prelude.{◌≡◌, ◌≤◌, length};
ghost use Rattle.ml_search.specs.GoalSeen.{goals_seen};
ghost use Rattle.ml_search.specs.Limits.{max_goals, max_inferences};
ghost use Rattle.ml_search.specs.ProgramSeen.{script_seen};
ghost use Rattle.ml_reader.specs.Faults.{fault};
ghost use Rattle.ml_reader.specs.inside.script.ScriptItems.{add_item, script_from, add_first};
ghost use Rattle.ml_reader.specs.inside.script.ScriptItems.{add_behind_goals};
ghost use Rattle.ml_reader.specs.inside.script.ScriptSeen.{IsAdded, draft_seen, item_seen};
ghost use Rattle.ml_reader.specs.declared.fault.ReadStop.TheVariants as read_stop;
ghost use Rattle.ml_reader.specs.declared.fault.ReadKind.TheVariants as read_kind;

use crate::fault::{ReadFault, ReadKind, ReadStop};
use crate::script::item::Item;
use ml_search::{DEFAULT_INFERENCES, Goal, Goals, Last, Script};
use std::alloc::Global;

/// What stands of a script.
#[derive(Drop)]
pub enum Draft {
    /// No clause.
    NoClauses,
    /// A budget, and goals behind which more may come.
    GoalsSoFar(u32, Vec<Goal>),
    /// A whole script.
    CompleteScript(u32, Vec<Goal>, Last),
}

// A clause that no script has at its place.
fn wrong(place: usize) -> ReadStop
    ensures { result ≡ read_stop.Fault (fault read_kind.BadScriptItem place) }
{
    ReadStop::Fault(ReadFault {
        place,
        kind: ReadKind::BadScriptItem,
    })
}

// One item more behind a budget and goals.
fn add_behind_goals(
    budget: u32,
    mut goals: Vec<Goal>,
    item: Item,
    place: usize,
) -> Result<Draft, ReadStop>
    ensures { IsAdded (add_behind_goals budget (goals_seen goals.items) (item_seen item)) place
        result }
{
    match item {
        Item::Budget(_) => Err(wrong(place)),
        Item::Query(goal) => {
            goals.push(goal)?;
            Ok(Draft::GoalsSoFar(budget, goals))
        }
        Item::Ending(last) => Ok(Draft::CompleteScript(budget, goals, last)),
        Item::Other => Err(wrong(place)),
    }
}

// The first item.
fn add_first(alloc: Global, item: Item, place: usize) -> Result<Draft, ReadStop>
    ensures { IsAdded (add_first (item_seen item)) place result }
{
    match item {
        Item::Budget(budget) => Ok(Draft::GoalsSoFar(budget, Vec::new(alloc))),
        item => add_behind_goals(DEFAULT_INFERENCES, Vec::new(alloc), item, place),
    }
}

/// One item more, of the clause at this place.
pub fn add_item(alloc: Global, draft: Draft, item: Item, place: usize) -> Result<Draft, ReadStop>
    ensures { IsAdded (add_item (draft_seen draft) (item_seen item)) place result }
{
    match draft {
        Draft::NoClauses => add_first(alloc, item, place),
        Draft::GoalsSoFar(budget, goals) => add_behind_goals(budget, goals, item, place),
        Draft::CompleteScript(_, _, _) => Err(wrong(place)),
    }
}

/// The script of which this stands. It takes no memory.
pub fn script_from(alloc: Global, draft: Draft) -> Script
    requires some { 1 ≤ (script_from (draft_seen draft)).budget }
    requires few { (script_from (draft_seen draft)).budget ≤ max_inferences }
    requires goals { length (script_from (draft_seen draft)).goals ≤ max_goals }
    ensures { script_seen result ≡ script_from (draft_seen draft) }
{
    match draft {
        Draft::NoClauses => {
            let goals = Goals::from_vec(Vec::new(alloc));
            Script::new(DEFAULT_INFERENCES, goals, Last::Commit)
        }
        Draft::GoalsSoFar(budget, goals) => Script::new(
            budget,
            Goals::from_vec(goals),
            Last::Commit,
        ),
        Draft::CompleteScript(budget, goals, last) => Script::new(
            budget,
            Goals::from_vec(goals),
            last,
        ),
    }
}
