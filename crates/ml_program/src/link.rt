//! Links.

use ml_builtin::Plain;
use ml_term::Kind;

/// The control constructs that are called with arguments.
#[derive(Clone, Copy)]
pub enum ControlCall {
    /// `call/1`.
    Call,
    /// `once/1`.
    Once,
    /// `\+/1`.
    NotProvable,
    /// `throw/1`.
    Throw,
    /// `findall/3`.
    Findall,
    /// `catch/3`.
    Catch,
}

/// The built-ins that change lists, each of one argument.
#[derive(Clone, Copy)]
pub enum StoreCall {
    /// `insert_tuple/1`.
    InsertTuple,
    /// `delete_tuple/1`.
    DeleteTuple,
    /// `asserta/1`.
    Asserta,
    /// `assertz/1`.
    Assertz,
    /// `retract/1`.
    Retract,
}

/// Where a call leads, by the name and the arity of its predicate.
#[derive(Clone, Copy)]
pub enum Link {
    /// To a control construct.
    Control(ControlCall),
    /// To a plain built-in.
    Plain(Plain),
    /// To a built-in that changes lists.
    Store(StoreCall),
    /// To a declared predicate: its kind, and the number of its list.
    Declared(Kind, u32),
    /// To the clauses of a procedure of the program, by its number.
    Procedure(u32),
    /// Nowhere: the predicate is unknown.
    Unknown,
}
