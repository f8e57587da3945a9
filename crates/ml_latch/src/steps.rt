//! The kinds of step on the table, and what each tells the seat that makes it.
ghost use Rattle.ml_latch.specs.Steps.{Draws, Looks, Passes, Settles};
ghost use Rattle.ml_latch.specs.View.{after_giving, given_view, after_taking_in, spent_view};

use crate::kept::Kept;
use crate::table::ViewOf;
use atomic_table::{Join, Play, Split};
use std::marker::PhantomData;

/// Draws a ticket.
pub(crate) struct Draw<V> {
    of: PhantomData<V>,
}

impl<V: Kept> Play<Option<V>, ViewOf<V>> for Draw<V> {
    ghost then = { Draws };
}

/// Looks which ticket is served. Where it is the seat's own, the seat takes the value's slot.
pub(crate) struct Look<V> {
    of: PhantomData<V>,
}

impl<V: Kept> Play<Option<V>, ViewOf<V>> for Look<V> {
    ghost then = { Looks V.past V.own V.base };
}

/// Serves the next ticket, and gives the value's slot back.
pub(crate) struct Pass<V> {
    of: PhantomData<V>,
}

impl<V: Kept> Play<Option<V>, ViewOf<V>> for Pass<V> {
    ghost then = { Passes V.past V.own };
}

/// Gives out a new seat.
pub(crate) struct GiveOut<V> {
    of: PhantomData<V>,
}

impl<V: Kept> Split<ViewOf<V>> for GiveOut<V> {
    ghost left = { after_giving };

    ghost right = { given_view V.own };
}

/// Takes another seat in, with all that it kept.
pub(crate) struct TakeIn<V> {
    of: PhantomData<V>,
}

impl<V: Kept> Join<ViewOf<V>> for TakeIn<V> {
    ghost both = { after_taking_in };

    ghost spent = { spent_view };
}

/// Compares what the seat has seen with what the seat that it took in last had seen.
pub(crate) struct Settle<V> {
    of: PhantomData<V>,
}

impl<V: Kept> Play<Option<V>, ViewOf<V>> for Settle<V> {
    ghost then = { Settles };
}
