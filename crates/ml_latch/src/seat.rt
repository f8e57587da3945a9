//! The right to take turns.
use crate::kept::Kept;
use crate::table::Place;
use std::marker::Model;

/// The right to take turns at one latch. Contracts see its number, what it has seen of the value's
/// past, what was done through it, how many seats it gave out, and the seats that it took in with
/// what was done through each.
#[derive(Drop)]
pub struct Seat<V: Kept> {
    pub(crate) place: Place<V>,
    pub(crate) number: u32,
    pub(crate) given: u32,
}

impl<V: Kept> Model for Seat<V> {
    ghost use Rattle.std.specs.Prelude.{◌≡◌};
    ghost use Rattle.ml_latch.specs.Seat.{SeatState};
    ghost use Rattle.ml_latch.specs.Place.{IsIdle};

    ghost Value = { SeatState V V.Entry V.Note };

    ghost view = { λ s. let v = s.place.me.0 in record {
      table = s.place.table_id;
      start = v.start;
      number = s.number;
      seen = v.seen;
      own = v.own;
      given = s.given;
      kept = v.kept;
    } };

    ghost invariant = { λ s. (s.place.me.0.number ≡ s.number) × (s.place.me.0.given ≡ s.given)
        × ((x : V) × IsIdle x s.place.me) };
}
