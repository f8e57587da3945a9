//! What answers the operations of a session.
ghost use Rattle.std.specs.Prelude.{◌≡◌, ◌++◌, ◌∷◌, [], List, Option, None, IsTrue, IfOk};
ghost use mathlib.Core.List.{IsPrefix};
ghost use Rattle.ml_desk.specs.Deaths.{death_of};
ghost use Rattle.ml_desk.specs.declared.death.Death.{Death};
ghost use Rattle.ml_search.specs.Operations.{is_log, is_reply_after, is_valid_after};
ghost use Rattle.ml_search.specs.Seen.{log_seen, operation_seen, reply_seen};
ghost use Rattle.ml_search.specs.declared.operation.Op.{Op};
ghost use Rattle.ml_search.specs.declared.operation.Reply.{Reply};
ghost use Rattle.ml_term.specs.declared.declaration.Decl.{Decl};

use crate::stop::DeskStop;
use ml_search::{Op, Reply};

/// What answers the operations of a session, one after another. How it knows its replies is its own
/// affair: they are of their kinds, and the log says which they were.
pub trait Desk {
    /// Plain data of each kind of desk, which no call changes. It is for contracts alone: no value
    /// of it is made.
    type Site;

    /// What was asked and replied so far.
    ghost log: { Self → List (Op × Reply) };

    /// The declarations by which an operation is valid.
    ghost decls: { Self → List Decl };

    /// What no call changes of what the desk is at.
    ghost site: { Self → Self.Site };

    /// The session's death, if it died.
    ghost died: { Self → Option Death };

    /// What no call changes of the desk itself: of one that holds a reference, to which object it
    /// refers.
    ghost stays: { Self → Self → Type 0 };

    /// Asks one operation. The reply is of its kind, and both then stand at the log's end. Of the
    /// lists behind a desk nothing is told but the replies.
    ///
    /// After a refusal the attempt of the session is over, and its owner is to end it.
    /// - `Died`: the session died, and the desk has its death, so it isn't asked again. Of the log
    ///   nothing is told.
    /// - `OutOfMemory`: the session is alive, and the log begins as before. What stands behind that
    ///   isn't told: the operation may have been carried out and logged, and its reply lost. So
    ///   the same operation may be asked again only where it is valid after the log that the desk
    ///   has now; a kind of desk may promise that log and lists stayed.
    fn ask(&mut self, op: &Op) -> Result<Reply, DeskStop>
        requires alive { died self.old ≡ None }
        requires valid { IsTrue (is_valid_after (decls self.old) (log_seen (log self.old))
            (operation_seen op.now)) }
        ensures logged { IfOk result (λ reply.
            log self.new ≡ log self.old ++ (op.now, reply) ∷ []) }
        ensures kind { IfOk result (λ reply.
            IsTrue (is_reply_after (decls self.old) (log_seen (log self.old))
            (operation_seen op.now) (reply_seen reply))) }

        // A death comes with its answer and with no other, and want of memory leaves the session
        // alive.
        ensures died { died self.new ≡ death_of result }

        // Of the log of a session that died nothing is said.
        ensures begins { died self.new ≡ None → IsPrefix (log self.old) (log self.new) }
        ensures decls { decls self.new ≡ decls self.old }
        ensures site { site self.new ≡ site self.old }
        ensures stays { stays self.old self.new };

    /// A desk stays itself.
    ghost stays_itself: { (d : Self) → stays d d };

    /// What stayed over two calls stayed over both.
    ghost stays_on: { (d e f : Self) → stays d e → stays e f → stays d f };

    /// Each operation of a desk's log was valid after those before it, and has a reply of its kind.
    ghost is_logged: { (d : Self) → IsTrue (is_log (decls d) (log_seen (log d))) };
}
