//! Logs: operations with their replies.
ghost use Rattle.std.specs.Prelude.{◌≡◌, ◌++◌, ◌∷◌, [], IfOk, OnOk, OnErr, take};
ghost use Rattle.ml_search.specs.declared.operation.Op.{Op};
ghost use Rattle.ml_search.specs.declared.operation.Reply.{Reply};

use crate::operation::{Op, Reply};
use std::alloc::{AllocError, Global};
use std::marker::Model;

/// Operations with their replies, in order. Contracts see the list of the pairs.
#[derive(Drop)]
pub struct Log {
    entries: Vec<(Op, Reply)>,
}

impl Model for Log {
    ghost use Rattle.std.specs.Coded.{codes};
    ghost use Rattle.std.specs.Prelude.{List};
    ghost use Rattle.ml_term.specs.contracts.term.Term as term;
    ghost use Rattle.ml_search.specs.declared.operation.Op.{Op};
    ghost use Rattle.ml_search.specs.declared.operation.Reply.{Reply};

    ghost Value = { List (Op × Reply) };

    ghost coded = { Prim.hlevel (codes, term.the_row.coded) };

    ghost view = { λ l. l.entries.items };
}

impl Log {
    /// A log of nothing. It takes no memory.
    pub fn new(alloc: Global) -> Log
        ensures { result ≡ [] }
    {
        Log {
            entries: Vec::new(alloc),
        }
    }

    /// Puts an operation with its reply at the end.
    pub fn push(&mut self, op: Op, reply: Reply) -> Result<(), AllocError>
        ensures ok { OnOk result (self.new ≡ self.old ++ (op, reply) ∷ []) }
        ensures err { OnErr result (self.new ≡ self.old) }
    {
        self.entries.push((op, reply))?;
        Ok(())
    }

    /// The operations with their replies.
    pub fn as_slice(&self) -> &[(Op, Reply)]
        ensures { result.now ≡ self.now }
    {
        self.entries.as_slice()
    }

    /// An equal log.
    pub fn copy_of(&self, alloc: Global) -> Result<Log, AllocError>
        ensures { IfOk result (λ log. log ≡ self.now) }
    {
        let mut log = Log::new(alloc);
        for (op, reply) in &self.entries {
            log.push(op.copy_of(alloc)?, reply.copy_of(alloc)?)?;
        }
        Ok(log)
    }
}
