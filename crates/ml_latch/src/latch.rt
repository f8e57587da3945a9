//! The latch.
ghost use Rattle.std.specs.Prelude.{◌≡◌, ◌<◌, ◌≤◌, ◌+◌, ℕ, [], IfOk, List, Contains};
ghost use mathlib.Core.List.{IsPrefix};
ghost use Rattle.ml_latch.specs.Seat.{IsSeatOf, TookInEach, after_joining};
ghost use Rattle.ml_latch.specs.Turn.{MayWorkAfter, TakesTurn};

use crate::job::Job;
use crate::kept::Kept;
use crate::rule::Turns;
use crate::seat::Seat;
use crate::steps::{GiveOut, Settle, TakeIn};
use crate::table::{TICKET, VALUE, ViewOf};
use crate::turn::work_in_turn;
use atomic_table::{Refused, Table};
use std::alloc::{AllocError, Global};
use std::marker::Model;
use std::snapshot::Snapshot;
use std::sync::Wait;

/// There was no memory.
pub type OutOfMemory = AllocError;

/// A value that seats take turns at. Contracts see the value that it was made with, and how many
/// seats it may give out.
#[derive(Drop)]
pub struct Latch<V: Kept> {
    table: Table<Option<V>, ViewOf<V>, Snapshot<V>, Turns<V>, Global>,
    seats: u32,
}

impl<V: Kept> Model for Latch<V> {
    ghost use Rattle.std.specs.Prelude.{◌≡◌, ◌<◌, ◌^◌};
    ghost use Rattle.ml_latch.specs.Seat.{LatchState};

    ghost Value = { LatchState V };

    ghost view = { λ l. record {
      table = l.table.shared.table_id;
      start = l.table.shared.key.value;
      seats = l.seats;
    } };

    ghost invariant = { λ l. (l.table.shared.table_id.words ≡ 2)
        × (l.table.shared.table_id.slots ≡ 1) × (l.seats < 2 ^ 32) };
}

impl<V: Kept> Latch<V> {
    /// A latch round this value, which may give out so many seats, and its seat number 0, which has
    /// seen the value's whole past. After a refusal the value was dropped.
    pub fn new(alloc: Global, value: V, seats: u32) -> Result<(Latch<V>, Seat<V>), OutOfMemory>
    where
        V: Drop,
        requires { 1 ≤ seats }
        ensures latch { IfOk result (λ made. (made.0.start ≡ value) × (made.0.seats ≡ seats)) }
        ensures seat { IfOk result (λ made. IsSeatOf made.0 made.1 × (made.1.number ≡ 0)) }
        ensures seen { IfOk result (λ made. made.1.seen ≡ V.past value) }
        ensures own { IfOk result (λ made. made.1.own ≡ V.own value 0) }
        ensures alone { IfOk result (λ made. (made.1.given ≡ 0) × (made.1.kept ≡ [])) }
    {
        let start = Snapshot::of(&value);
        let mut slots = Vec::with_capacity(alloc, 1)?;
        slots.push_reserved(Some(value));
        match Table::new(alloc, &[0, 0], slots, &start) {
            Ok((table, place)) => {
                let seat = Seat {
                    place,
                    number: 0,
                    given: 0,
                };
                Ok((Latch { table, seats }, seat))
            }
            Err(Refused { slots: _ }) => Err(AllocError),
        }
    }

    /// Gives out a new seat, with the next number from 1 on. It has seen what its maker has seen,
    /// and what was done through it is what the value that the latch was made with says of its
    /// number. It takes no memory.
    pub fn split(&self, from: &mut Seat<V>) -> Seat<V>
        requires latch { IsSeatOf self.now from.old }
        requires first { from.old.number ≡ 0 }
        requires room { from.old.given < self.now.seats }
        ensures from { from.new ≡ record from.old { given = from.old.given + 1 } }
        ensures latch { IsSeatOf self.now result }
        ensures number { result.number ≡ from.old.given + 1 }
        ensures seen { result.seen ≡ from.old.seen }
        ensures own { result.own ≡ V.own self.now.start (from.old.given + 1) }
        ensures alone { (result.given ≡ 0) × (result.kept ≡ []) }
    {
        let place = self.table.shared.split_seat::<GiveOut<V>>(&mut from.place);
        from.given += 1;
        Seat {
            place,
            number: from.given,
            given: 0,
        }
    }

    /// Takes a turn: waits for it, does the job, and gives the job's answer. The seat then has seen
    /// the whole past. It refuses nothing, and no clause says that the turn ever comes.
    pub fn call<J: Job<V>, R: Wait>(&self, rt: &R, seat: &mut Seat<V>, job: J) -> J::Answer
        requires latch { IsSeatOf self.now seat.old }
        requires job { MayWorkAfter (J.needs job) (V.base self.now.start) seat.old.own
            seat.old.seen }
        ensures turn { TakesTurn V.past V.own V.base (J.gives job) self.now.start seat.old seat.new
            result }
        ensures seen { IsPrefix seat.old.seen seat.new.seen }
    {
        let number = seat.number;
        work_in_turn(rt, &self.table.shared, &mut seat.place, number, job)
    }

    /// Takes another seat in, with each seat that it took in. The one that stays then has seen the
    /// longer of what both had seen, which begins with the shorter. It takes no memory.
    pub fn join(&self, into: &mut Seat<V>, other: Seat<V>)
        requires latch { IsSeatOf self.now into.old }
        requires other { IsSeatOf self.now other }
        ensures into { into.new ≡ after_joining into.old other }
        ensures begins { IsPrefix into.old.seen into.new.seen }
        ensures begins_other { IsPrefix other.seen into.new.seen }
    {
        let Seat {
            place,
            number: _,
            given: _,
        } = other;
        let table = &self.table.shared;
        table.join_seat::<TakeIn<V>>(&mut into.place, place);
        table.load::<Settle<V>>(&mut into.place, TICKET);
    }

    /// The value, once seat 0 took every other seat in. Its past begins with what that seat has
    /// seen, and what it says of each number is what was done through the seat with that number. It
    /// takes no memory.
    pub fn close(self, seat: Seat<V>) -> V
        requires latch { IsSeatOf self seat }
        requires first { seat.number ≡ 0 }
        requires all { TookInEach seat }
        ensures past { IsPrefix seat.seen (V.past result) }
        ensures base { V.base result ≡ V.base self.start }
        ensures own { V.own result 0 ≡ seat.own }
        ensures kept { (n : ℕ) (notes : List V.Note) → Contains seat.kept (n, notes)
            → V.own result n ≡ notes }
        ensures others { (n : ℕ) → seat.given < n → V.own result n ≡ V.own self.start n }
    {
        let Latch { table, seats: _ } = self;
        let Seat {
            place,
            number: _,
            given: _,
        } = seat;
        let mut closed = table.close_with(place);
        let value = closed.take(VALUE).unwrap();
        closed.free();
        value
    }
}
