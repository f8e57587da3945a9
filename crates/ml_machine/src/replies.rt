//! Replies to what the machine asked.
ghost use Rattle.std.specs.Prelude.{◌≡◌, IfOk, List};
ghost use Rattle.ml_asking.specs.Asking.{effect_of};
ghost use Rattle.ml_machine.specs.Awaited.{AwaitsAny, IsFitReply};
ghost use Rattle.ml_machine.specs.Items.{effect_seen};
ghost use Rattle.ml_machine.specs.Steps.{RepliesTo};
ghost use Rattle.ml_search.specs.Program.{Program};
ghost use Rattle.ml_search.specs.Seen.{reply_seen};
ghost use Rattle.ml_stack.specs.Memories.{CompiledProcedure};

use crate::items::Scan;
use crate::machine::Machine;
use crate::position::{Awaits, Position, Then};
use ml_raise::{Limit, resource_error};
use ml_search::Reply;
use ml_stack::{FrameLink, Left, push_choice};
use std::alloc::AllocError;

/// What a reply says of a change.
#[derive(Clone, Copy)]
pub enum ChangeEffect {
    /// A list was changed.
    Made,
    /// No list was changed.
    Unmade,
    /// Too many changes were made before.
    Limit,
}

impl Machine {
    /// Goes on with the reply to what was asked. Wherever the machine awaited it, some turns of the
    /// search that asks lead from the move to which the reply leads to one for which the machine
    /// stands then. After a refusal, for want of memory, nothing is said of the machine.
    pub fn reply(&mut self, awaits: Awaits, reply: Reply) -> Result<Then, AllocError>
        requires awaits { AwaitsAny self.old awaits }
        requires fit { IsFitReply (reply_seen reply) }
        ensures { IfOk result (λ then. (p : Program) (ps : List CompiledProcedure) →
            RepliesTo p ps self.old awaits (reply_seen reply) self.new then) }
    {
        match awaits {
            Awaits::Cursor {
                how,
                goal,
                wanted,
                next,
            } => {
                let scan = Scan {
                    how,
                    goal,
                    wanted,
                    next,
                };
                Ok(self.take_cursor(reply, scan)?)
            }
            Awaits::Item {
                how,
                goal,
                wanted,
                cursor,
                item,
                next,
            } => {
                let scan = Scan {
                    how,
                    goal,
                    wanted,
                    next,
                };
                Ok(self.take_item(reply, scan, cursor, item)?)
            }
            Awaits::Change { must_change, next } => {
                Ok(self.take_change(&reply, must_change, next)?)
            }
        }
    }

    // Goes on with the reply to an opening: where a cursor was opened, its items are a choice, and
    // the first is tried.
    fn take_cursor(&mut self, reply: Reply, scan: Scan) -> Result<Then, AllocError>
        requires { AwaitsAny self.old (Awaits.Cursor scan.how scan.goal scan.wanted scan.next) }
        ensures { IfOk result (λ then. (p : Program) (ps : List CompiledProcedure) →
            RepliesTo p ps self.old (Awaits.Cursor scan.how scan.goal scan.wanted scan.next)
            (reply_seen reply) self.new then) }
    {
        let Reply::Cursor(cursor) = reply else {
            return Ok(Then::Goes(Position::Fails));
        };
        let left = Left::Items {
            how: scan.how,
            goal: scan.goal,
            wanted: scan.wanted,
            cursor,
            item: 0,
            next: scan.next,
        };
        push_choice(&self.memory, &mut self.stacks.choices, left)?;
        Ok(Then::Goes(Position::Fails))
    }

    // Goes on with the reply to a change.
    fn take_change(
        &mut self,
        reply: &Reply,
        must_change: bool,
        next: FrameLink,
    ) -> Result<Then, AllocError>
        requires { AwaitsAny self.old (Awaits.Change must_change next) }
        ensures { IfOk result (λ then. (p : Program) (ps : List CompiledProcedure) →
            RepliesTo p ps self.old (Awaits.Change must_change next) (reply_seen reply.now) self.new
            then) }
    {
        match effect_of(reply) {
            ChangeEffect::Made => Ok(Then::Goes(Position::Goes(next))),
            ChangeEffect::Unmade => {
                if must_change {
                    return Ok(Then::Goes(Position::Fails));
                }
                Ok(Then::Goes(Position::Goes(next)))
            }
            ChangeEffect::Limit => {
                let error = resource_error(self.alloc, Limit::Changes)?;
                Ok(self.raise(error, next)?)
            }
        }
    }
}

// What a reply says of a change.
fn effect_of(reply: &Reply) -> ChangeEffect
    ensures { effect_seen result ≡ effect_of (reply_seen reply.now) }
{
    match reply {
        Reply::Added => ChangeEffect::Made,
        Reply::Removed => ChangeEffect::Made,
        Reply::Full => ChangeEffect::Limit,
        Reply::Cursor(_) => ChangeEffect::Unmade,
        Reply::Item(_) => ChangeEffect::Unmade,
        Reply::End => ChangeEffect::Unmade,
        Reply::Present => ChangeEffect::Unmade,
        Reply::Absent => ChangeEffect::Unmade,
    }
}
