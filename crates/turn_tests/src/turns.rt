//! A list of numbers whose story is itself, passed among seats and threads.
ghost use Rattle.std.specs.Prelude.{◌≡◌, ◌+◌, ◌<◌, Some, IfOk, IfSome, IsTrue};
ghost use mathlib.Core.List.{IsPrefix};
ghost use Rattle.std.specs.Thread.{IsSync};
ghost use Rattle.asp_turn.specs.Seats.{IsSeatOf, HoldsNothing, StandsFor, seen_by, taken_story, refused_takes};

use asp_turn::{Kept, Seat, Turn, running_turn};
use std::alloc::{AllocError, Global};
use std::sync::Wait;
use std::test::Fail;
use std::thread::{Threads, join, join_mut};

const EACH: u32 = 1000;

#[derive(Drop)]
struct Numbers {
    list: u32,
    added: Vec<u32>,
}

impl Kept for Numbers {
    type World = u32;

    type Item = u32;

    ghost world = { λ n. n.list };

    ghost story = { λ n. n.added.items };
}

impl Numbers {
    fn add(&mut self, number: u32) -> Result<(), AllocError>
        ensures list { self.new.list ≡ self.old.list }
        ensures grown { IsPrefix self.old.added.items self.new.added.items }
    {
        self.added.push(number)?;
        Ok(())
    }
}

// Each thread adds its thousand numbers, and takes the turn for each.
fn add_all<R: Wait>(
    rt: &R,
    turn: &Turn<Numbers>,
    seat: &mut Seat<Numbers>,
    thread: u16,
) -> Result<(), AllocError>
    requires own { IsSeatOf turn.now seat.old }
    requires free { HoldsNothing seat.old }
    ensures own { IfOk result (λ _. IsSeatOf turn.now seat.new) }
    ensures free { IfOk result (λ _. HoldsNothing seat.new) }
{
    for number in 0..EACH {
        let mut numbers = turn.take(rt, seat);
        let added = numbers.add(u32::from(thread) * EACH + number);
        turn.give(seat, numbers);
        added?;
    }
    Ok(())
}

// The same by a seat that is handed over and comes back.
fn add_by<R: Wait>(
    rt: &R,
    turn: &Turn<Numbers>,
    mut seat: Seat<Numbers>,
    thread: u16,
) -> Result<Seat<Numbers>, AllocError>
    requires own { IsSeatOf turn.now seat }
    requires free { HoldsNothing seat }
    ensures own { IfOk result (λ s. IsSeatOf turn.now s) }
    ensures free { IfOk result (λ s. HoldsNothing s) }
{
    add_all(rt, turn, &mut seat, thread)?;
    Ok(seat)
}

// True where the take was refused, and then its count rose.
fn is_refused(turn: &Turn<Numbers>, seat: &mut Seat<Numbers>) -> bool
    requires own { IsSeatOf turn.now seat.old }
    requires free { HoldsNothing seat.old }
    ensures own { IsSeatOf turn.now seat.new }
    ensures free { HoldsNothing seat.new }
    ensures rose { IsTrue result → refused_takes seat.new ≡ refused_takes seat.old + 1 }
{
    match turn.try_take(seat) {
        Some(numbers) => {
            turn.give(seat, numbers);
            false
        }
        None => true,
    }
}

// What the other seat takes after it learned from this one begins with what this one has seen.
fn take_after_learning(
    turn: &Turn<Numbers>,
    other: &mut Seat<Numbers>,
    seat: &mut Seat<Numbers>,
) -> Option<Numbers>
    requires own { IsSeatOf turn.now other.old × IsSeatOf turn.now seat.old }
    requires free { HoldsNothing other.old × HoldsNothing seat.old }
    ensures own { IsSeatOf turn.now other.new × IsSeatOf turn.now seat.new }
    ensures free { HoldsNothing seat.new }
    ensures stands { IfSome result (λ numbers. StandsFor other.new numbers.list) }
    ensures holds { IfSome result (λ numbers. taken_story other.new ≡ Some numbers.added.items) }
    ensures learned { IfSome result (λ numbers. IsPrefix (seen_by seat.old) numbers.added.items) }
{
    turn.learn(other, seat);
    turn.try_take(other)
}

// Two threads, each with a seat that it is lent.
fn add_by_two<R: Threads + Wait + Sync>(
    rt: &R,
    turn: &Turn<Numbers>,
    first: &mut Seat<Numbers>,
    second: &mut Seat<Numbers>,
    thread: u16,
) -> Result<(), AllocError>
    requires first_own { IsSeatOf turn.now first.old }
    requires first_free { HoldsNothing first.old }
    requires second_own { IsSeatOf turn.now second.old }
    requires second_free { HoldsNothing second.old }
    requires thread { thread < 9 }
    ensures first_own { IfOk result (λ _. IsSeatOf turn.now first.new) }
    ensures first_free { IfOk result (λ _. HoldsNothing first.new) }
    ensures second_own { IfOk result (λ _. IsSeatOf turn.now second.new) }
    ensures second_free { IfOk result (λ _. HoldsNothing second.new) }
{
    let (one, two) = join_mut(
        rt,
        &mut || add_all(rt, turn, first, thread),
        &mut || add_all(rt, turn, second, thread + 1),
    );
    one?;
    two
}

// The same by seats that are handed over, of which one comes back and has seen what both have.
fn add_by_both<R: Threads + Wait + Sync>(
    rt: &R,
    turn: &Turn<Numbers>,
    mut first: Seat<Numbers>,
    mut second: Seat<Numbers>,
    thread: u16,
) -> Result<Seat<Numbers>, AllocError>
    requires first_own { IsSeatOf turn.now first }
    requires first_free { HoldsNothing first }
    requires second_own { IsSeatOf turn.now second }
    requires second_free { HoldsNothing second }
    requires thread { thread < 9 }
    ensures own { IfOk result (λ s. IsSeatOf turn.now s) }
    ensures free { IfOk result (λ s. HoldsNothing s) }
{
    add_by_two(rt, turn, &mut first, &mut second, thread)?;
    turn.join(&mut first, second);
    Ok(first)
}

// How many numbers came from each thread, if those of each came in order.
fn counts_in_order(numbers: &[u32]) -> Option<[u32; 4]> {
    let mut counts = [0u32; 4];
    for number in numbers {
        let count = counts.get_mut((*number / EACH) as usize)?;
        if *count != *number % EACH {
            return None;
        }
        *count += 1;
    }
    Some(counts)
}

fn by_two<R: Threads + Wait + Sync>(rt: &R, alloc: Global) -> Result<Numbers, AllocError> {
    let (turn, mut first) = Turn::new(
        alloc,
        Numbers {
            list: 2,
            added: Vec::new(alloc),
        },
    )?;
    let second = turn.split(&mut first);
    let (first, second) = join(
        rt,
        || add_by(rt, &turn, first, 0),
        || add_by(rt, &turn, second, 1),
    );
    let mut first = first?;
    turn.join(&mut first, second?);
    Ok(turn.close(rt, first))
}

fn by_four<R: Threads + Wait + Sync>(rt: &R, alloc: Global) -> Result<Numbers, AllocError> {
    let (turn, mut first) = Turn::new(
        alloc,
        Numbers {
            list: 4,
            added: Vec::new(alloc),
        },
    )?;
    let mut second = turn.split(&mut first);
    let third = turn.split(&mut first);
    let fourth = turn.split(&mut second);
    let (left, right) = join(
        rt,
        ||
            requires { IsSync R.row × IsSeatOf turn first × HoldsNothing first × IsSeatOf turn second × HoldsNothing second }
        { add_by_both(rt, &turn, first, second, 0) },
        ||
            requires { IsSync R.row × IsSeatOf turn third × HoldsNothing third × IsSeatOf turn fourth × HoldsNothing fourth }
        { add_by_both(rt, &turn, third, fourth, 2) },
    );
    let mut left = left?;
    turn.join(&mut left, right?);
    Ok(turn.close(rt, left))
}

#[test]
fn one_thread_makes_every_call(rt: HostRuntime) -> Result<(), Fail> {
    let alloc = rt.alloc();
    let (turn, mut seat) = Turn::new(
        alloc,
        Numbers {
            list: 7,
            added: Vec::new(alloc),
        },
    )?;
    let mut other = turn.split(&mut seat);
    let mut numbers = turn.take(&rt, &mut seat);
    assert!(rt; is_refused(&turn, &mut other), "another seat holds");
    numbers.add(3)?;
    turn.give(&mut seat, numbers);
    assert!(rt; !is_refused(&turn, &mut other), "no seat holds");
    let Some(mut numbers) = take_after_learning(&turn, &mut other, &mut seat) else {
        panic!(rt; "no seat holds")
    };
    assert_eq!(rt; numbers.added.as_slice(), [3].as_slice());
    numbers.add(5)?;
    turn.give(&mut other, numbers);
    turn.join(&mut seat, other);
    let numbers = turn.close(&rt, seat);
    assert_eq!(rt; numbers.list, 7);
    assert_eq!(rt; numbers.added.as_slice(), [3, 5].as_slice());
    running_turn::<Numbers>();
    Ok(())
}

#[test]
fn two_threads_take_turns(rt: HostRuntime) -> Result<(), Fail> {
    let numbers = by_two(&rt, rt.alloc())?;
    assert_eq!(rt; numbers.list, 2);
    assert_eq!(rt;
        counts_in_order(numbers.added.as_slice()),
        Some([EACH, EACH, 0, 0])
    );
    Ok(())
}

#[test]
fn four_threads_take_turns(rt: HostRuntime) -> Result<(), Fail> {
    let numbers = by_four(&rt, rt.alloc())?;
    assert_eq!(rt; numbers.list, 4);
    assert_eq!(rt;
        counts_in_order(numbers.added.as_slice()),
        Some([EACH, EACH, EACH, EACH])
    );
    Ok(())
}
