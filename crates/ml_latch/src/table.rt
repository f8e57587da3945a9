//! The table below a latch: two words, and one slot for the value.
use crate::kept::Kept;
use crate::rule::Turns;
use crate::view::View;
use atomic_table::Shared;
use std::snapshot::Snapshot;

/// The word from which a ticket is drawn: how many were drawn, modulo 2^64.
pub(crate) const TICKET: usize = 0;

/// The word that tells which ticket is served: how many turns were passed on, modulo 2^64.
pub(crate) const SERVING: usize = 1;

/// The slot of the value. It is `None` while a job works on the value.
pub(crate) const VALUE: usize = 0;

/// What a seat of a latch knows.
pub(crate) type ViewOf<V> = View<V, <V as Kept>::Entry, <V as Kept>::Note>;

/// The table as every seat sees it. Its key is the value that the latch was made with.
pub(crate) type TurnTable<V> = Shared<Option<V>, ViewOf<V>, Snapshot<V>, Turns<V>>;

/// The right to step on the table.
pub(crate) type Place<V> = atomic_table::Seat<Option<V>, ViewOf<V>>;
