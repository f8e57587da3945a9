//! Latches over a value that counts, in threads.
ghost use Rattle.std.specs.Prelude.{◌≡◌, ◌+◌, ◌%◌, ◌^◌, ◌<◌, ◌≤◌, ℕ, [], IfOk, vec_len};
ghost use Rattle.ml_latch.specs.Seat.{AreNumbered, IsSeatOf, TookIn};

use crate::{Job, Kept, Latch, OutOfMemory, Seat};
use std::alloc::Global;
use std::sync::Wait;
use std::test::Fail;
use std::thread;
use std::thread::{Threads, join};

/// A value that counts the jobs done.
#[derive(Drop)]
struct Count {
    total: u64,
}

impl Kept for Count {
    type Entry = ();

    type Note = ();

    type Base = ();

    ghost past = { λ count. [] };

    ghost own = { λ count n. [] };

    ghost base = { λ count. tt };
}

/// Counts one more.
#[derive(Drop)]
struct Add;

impl Job<Count> for Add {
    type Answer = u64;

    ghost needs = { λ job base own past. Unit {0} };

    ghost gives = { λ job before number answer after. (after.total ≡ (before.total + 1) % 2 ^ 64)
        × (answer ≡ after.total) };

    fn work(self, value: &mut Count, _number: u32) -> u64 {
        value.total = value.total.wrapping_add(1);
        value.total
    }
}

// Calls so often through the seat, and gives it back.
fn add_often<R: Wait>(
    rt: &R,
    latch: &Latch<Count>,
    mut seat: Seat<Count>,
    times: u32,
) -> Seat<Count>
    requires { IsSeatOf latch.now seat }
    ensures { IsSeatOf latch.now result × (result.number ≡ seat.number)
        × (result.kept ≡ seat.kept) }
{
    for _ in 0..times {
        latch.call(rt, &mut seat, Add);
    }
    seat
}

#[test]
fn two_seats_count_to_three(rt: HostRuntime) -> Result<(), Fail> {
    let (latch, mut first) = Latch::new(rt.alloc(), Count { total: 0 }, 2)?;
    let one = latch.split(&mut first);
    let two = latch.split(&mut first);
    let (one, two) = join(
        &rt,
        || -> Seat<Count>
            requires { IsSeatOf latch one }
            ensures { IsSeatOf latch result × (result.number ≡ one.number)
                × (result.kept ≡ one.kept) }
        { add_often(&rt, &latch, one, 2) },
        || -> Seat<Count>
            requires { IsSeatOf latch two }
            ensures { IsSeatOf latch result × (result.number ≡ two.number)
                × (result.kept ≡ two.kept) }
        { add_often(&rt, &latch, two, 1) },
    );
    latch.join(&mut first, one);
    latch.join(&mut first, two);
    let count = latch.close(first);
    assert!(rt; count.total == 3);
    Ok(())
}

// Gives out so many seats.
fn split_often(
    alloc: Global,
    latch: &Latch<Count>,
    first: &mut Seat<Count>,
    count: u32,
) -> Result<Vec<Seat<Count>>, OutOfMemory>
    requires latch { IsSeatOf latch.now first.old }
    requires first { (first.old.number ≡ 0) × (first.old.given ≡ 0) }
    requires room { count ≤ latch.now.seats }
    ensures first { IfOk result (λ seats.
        IsSeatOf latch.now first.new × (first.new.number ≡ 0) × (first.new.given ≡ count)) }
    ensures seats { IfOk result (λ seats.
        (vec_len seats ≡ count) × AreNumbered latch.now seats.items) }
{
    let mut seats = Vec::with_capacity(alloc, count as usize)?;
    for _ in 0..count {
        seats.push_reserved(latch.split(first));
    }
    Ok(seats)
}

// Calls so often through each seat, each in a thread of its own, and gives them back.
fn add_in_threads<R: Threads + Wait + Sync>(
    rt: &R,
    latch: &Latch<Count>,
    seats: Vec<Seat<Count>>,
    times: u32,
) -> Result<Vec<Seat<Count>>, OutOfMemory>
    requires { AreNumbered latch.now seats.items }
    ensures { IfOk result (λ done.
        (vec_len done ≡ vec_len seats) × AreNumbered latch.now done.items) }
{
    let done = thread::map_vec(
        rt,
        seats,
        &|seat: Seat<Count>| -> Seat<Count>
            requires { IsSeatOf latch.now seat }
            ensures { IsSeatOf latch.entry.now result × (result.number ≡ seat.number)
                × (result.kept ≡ seat.kept) }
        { add_often(rt, latch, seat, times) },
    )?;
    Ok(done)
}

// Takes all these seats in.
fn join_all(latch: &Latch<Count>, into: &mut Seat<Count>, mut seats: Vec<Seat<Count>>)
    requires latch { IsSeatOf latch.now into.old }
    requires seats { AreNumbered latch.now seats.items }
    ensures into { IsSeatOf latch.now into.new × (into.new.number ≡ into.old.number)
        × (into.new.given ≡ into.old.given) }
    ensures all { (n : ℕ) → 0 < n → n ≤ vec_len seats → TookIn into.new n }
{
    while let Some(seat) = seats.pop() {
        latch.join(into, seat);
    }
}

#[test]
fn eight_seats_count_to_eight_thousand(rt: HostRuntime) -> Result<(), Fail> {
    let (latch, mut first) = Latch::new(rt.alloc(), Count { total: 0 }, 8)?;
    let seats = split_often(rt.alloc(), &latch, &mut first, 8)?;
    let seats = add_in_threads(&rt, &latch, seats, 1000)?;
    join_all(&latch, &mut first, seats);
    let count = latch.close(first);
    assert!(rt; count.total == 8000);
    Ok(())
}
