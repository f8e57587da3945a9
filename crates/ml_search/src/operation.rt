//! The operations by which a session asks for the lists, and their replies. A clause stands as
//! `:-(Head, Body)`, a fact with the body `true`.
ghost use Rattle.std.specs.Prelude.{◌≡◌, IfOk};

use ml_term::Term;
use std::alloc::{AllocError, Global};

/// What a session asks of the lists. Declarations, cursors and items are numbered from 0.
#[derive(Drop)]
pub enum Op {
    /// Opens a cursor over a declaration's list with a head as its pattern. Its number is the
    /// number of cursors opened before.
    Open(u32, Term),
    /// Asks a cursor for the item with this number.
    Next(u32, u32),
    /// Puts a tuple in.
    Insert(Term),
    /// Takes a tuple out.
    Delete(Term),
    /// Puts a clause behind all others.
    Assertz(Term),
    /// Puts a clause before all others.
    Asserta(Term),
    /// Takes out the clause that a cursor gave with this number.
    DeleteAt(u32, u32),
}

/// What the lists reply.
#[derive(Drop)]
pub enum Reply {
    /// The number of the cursor that was opened.
    Cursor(u32),
    /// The item that was asked for.
    Item(Term),
    /// The cursor has no such item.
    End,
    /// A tuple or clause was put in.
    Added,
    /// The tuple was there before.
    Present,
    /// A tuple or clause was taken out.
    Removed,
    /// The tuple or clause wasn't there.
    Absent,
    /// Too many changes were made before. Nothing was changed.
    Full,
}

impl Op {
    /// An equal operation.
    pub fn copy_of(&self, alloc: Global) -> Result<Op, AllocError>
        ensures { IfOk result (λ op. op ≡ self.now) }
    {
        match self {
            Op::Open(d, pattern) => Ok(Op::Open(*d, pattern.copy_of(alloc)?)),
            Op::Next(c, i) => Ok(Op::Next(*c, *i)),
            Op::Insert(t) => Ok(Op::Insert(t.copy_of(alloc)?)),
            Op::Delete(t) => Ok(Op::Delete(t.copy_of(alloc)?)),
            Op::Assertz(t) => Ok(Op::Assertz(t.copy_of(alloc)?)),
            Op::Asserta(t) => Ok(Op::Asserta(t.copy_of(alloc)?)),
            Op::DeleteAt(c, i) => Ok(Op::DeleteAt(*c, *i)),
        }
    }
}

impl Reply {
    /// An equal reply.
    pub fn copy_of(&self, alloc: Global) -> Result<Reply, AllocError>
        ensures { IfOk result (λ reply. reply ≡ self.now) }
    {
        match self {
            Reply::Cursor(c) => Ok(Reply::Cursor(*c)),
            Reply::Item(t) => Ok(Reply::Item(t.copy_of(alloc)?)),
            Reply::End => Ok(Reply::End),
            Reply::Added => Ok(Reply::Added),
            Reply::Present => Ok(Reply::Present),
            Reply::Removed => Ok(Reply::Removed),
            Reply::Absent => Ok(Reply::Absent),
            Reply::Full => Ok(Reply::Full),
        }
    }
}
