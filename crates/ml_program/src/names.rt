//! The names of built-ins.
ghost use Rattle.std.specs.Prelude.{◌≡◌};
ghost use Rattle.ml_builtin.specs.Tables.{plain_of};
ghost use Rattle.ml_program.specs.Links.{control_call, control_calls_1, control_calls_3};
ghost use Rattle.ml_program.specs.Links.{store_call, store_calls};
ghost use Rattle.ml_search.specs.Names.{look_up};

use crate::link::{ControlCall, StoreCall};
use ml_builtin::Plain;
use ml_term::Pred;

/// The plain built-in that a predicate is, if it is one.
pub(crate) fn plain_call(pred: &Pred) -> Option<Plain>
    ensures { result ≡ plain_of pred.now.name pred.now.arity }
{
    Plain::of(&pred.name, pred.arity)
}

fn control_call_1(name: &[u8]) -> Option<ControlCall>
    ensures { result ≡ look_up control_calls_1 name.now }
{
    if b"call".as_slice() == name {
        Some(ControlCall::Call)
    } else if b"once".as_slice() == name {
        Some(ControlCall::Once)
    } else if b"\\+".as_slice() == name {
        Some(ControlCall::NotProvable)
    } else if b"throw".as_slice() == name {
        Some(ControlCall::Throw)
    } else {
        None
    }
}

fn control_call_3(name: &[u8]) -> Option<ControlCall>
    ensures { result ≡ look_up control_calls_3 name.now }
{
    if b"findall".as_slice() == name {
        Some(ControlCall::Findall)
    } else if b"catch".as_slice() == name {
        Some(ControlCall::Catch)
    } else {
        None
    }
}

/// The control construct that a predicate is, if it is one that is called.
pub(crate) fn control_call(pred: &Pred) -> Option<ControlCall>
    ensures { result ≡ control_call pred.now.name pred.now.arity }
{
    let name = pred.name.as_slice();
    match pred.arity {
        1 => control_call_1(name),
        3 => control_call_3(name),
        _ => None,
    }
}

fn store_call_1(name: &[u8]) -> Option<StoreCall>
    ensures { result ≡ look_up store_calls name.now }
{
    if b"insert_tuple".as_slice() == name {
        Some(StoreCall::InsertTuple)
    } else if b"delete_tuple".as_slice() == name {
        Some(StoreCall::DeleteTuple)
    } else if b"assertz".as_slice() == name {
        Some(StoreCall::Assertz)
    } else if b"asserta".as_slice() == name {
        Some(StoreCall::Asserta)
    } else if b"retract".as_slice() == name {
        Some(StoreCall::Retract)
    } else {
        None
    }
}

/// The built-in that changes lists that a predicate is, if it is one.
pub(crate) fn store_call(pred: &Pred) -> Option<StoreCall>
    ensures { result ≡ store_call pred.now.name pred.now.arity }
{
    let name = pred.name.as_slice();
    match pred.arity {
        1 => store_call_1(name),
        _ => None,
    }
}
