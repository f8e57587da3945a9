//! One turn: a ticket is drawn, the value is awaited, worked on and put back, and the next ticket
//! is served.
ghost use Rattle.std.specs.Prelude.{◌≡◌, ◌∷◌, [], None, Some};
ghost use Rattle.ml_latch.specs.Place.{FitsTable, IsIdle, IsSamePlace, IsWaiting};
ghost use Rattle.ml_latch.specs.Turn.{Finds, MayBecome, MayWorkAfter, WorksInTurn};
ghost use Rattle.ml_latch.specs.View.{after_turn};

use crate::job::Job;
use crate::kept::Kept;
use crate::steps::{Draw, Look, Pass};
use crate::table::{Place, SERVING, TICKET, TurnTable, VALUE};
use std::sync::Wait;
use std::thread;

// Waits until the ticket is served, and takes the value. It yields the processor between two looks.
fn await_turn<V: Kept, R: Wait>(
    rt: &R,
    table: &TurnTable<V>,
    place: &mut Place<V>,
    ticket: u64,
) -> V
    requires table { FitsTable table.now.table_id place.old.table_id }
    requires waits { IsWaiting table.now.key.value place.old.me ticket }
    ensures table { IsSamePlace place.old place.new }
    ensures turn { place.new.me ≡ (record place.old.me.0 { taken = Some result }, (0, None) ∷ []) }
    ensures found { Finds V.past V.own V.base table.now.key.value place.old.me.0 result }
{
    for _ in rt.forever() {
        if table.load::<Look<V>>(place, SERVING) == ticket {
            return table.exchange(place, VALUE, None).unwrap();
        }
        thread::yield_now();
    }
    unreachable!()
}

// Puts the value back, and passes the turn on.
fn pass_on<V: Kept>(table: &TurnTable<V>, place: &mut Place<V>, value: V)
    requires table { FitsTable table.now.table_id place.old.table_id }
    requires slot { place.old.me.1 ≡ (0, None) ∷ [] }
    requires turn { (found : V) × (place.old.me.0.taken ≡ Some found)
        × MayBecome V.past V.own V.base place.old.me.0.number found value }
    requires start { place.old.me.0.start ≡ Some table.now.key.value }
    ensures table { IsSamePlace place.old place.new }
    ensures seen { place.new.me ≡ (after_turn V.past V.own place.old.me.0 value, []) }
{
    let left = table.exchange(place, VALUE, Some(value));
    let None = left else { unreachable!() };
    table.fetch_add::<Pass<V>>(place, SERVING, 1);
}

/// Takes a turn, and does the job in it.
pub(crate) fn work_in_turn<V: Kept, J: Job<V>, R: Wait>(
    rt: &R,
    table: &TurnTable<V>,
    place: &mut Place<V>,
    number: u32,
    job: J,
) -> J::Answer
    requires table { FitsTable table.now.table_id place.old.table_id }
    requires idle { IsIdle table.now.key.value place.old.me }
    requires number { place.old.me.0.number ≡ number }
    requires job { MayWorkAfter (J.needs job) (V.base table.now.key.value) place.old.me.0.own
        place.old.me.0.seen }
    ensures table { IsSamePlace place.old place.new }
    ensures turn { WorksInTurn V.past V.own V.base (J.gives job) table.now.key.value place.old.me.0
        place.new.me result }
{
    let ticket = table.fetch_add::<Draw<V>>(place, TICKET, 1);
    let mut value = await_turn(rt, table, place, ticket);
    let answer = job.work(&mut value, number);
    pass_on(table, place, value);
    answer
}
