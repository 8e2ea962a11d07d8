//! The calls on a lock, a turn and a pass.

ghost use Rattle.std.specs.Prelude.{◌≡◌, true, ◌+◌, ◌%◌, ◌^◌, ◌<◌, ◌≤◌, [], ◌∷◌, IfOk, Some};
ghost use Rattle.turn_lock.specs.declared.view.Stage.TheVariants.{Idle, Waiting, Holding};
ghost use Rattle.turn_lock.specs.Passes.{knows, turn_knows, turn_value, turn_lock, IsPassOf, Adds, Added};
ghost use Rattle.turn_lock.specs.Seats.{seat_knows, IsIdle, IsAtTurn};
ghost use Rattle.std.specs.Borrow.{sem};
ghost use Rattle.turn_lock.specs.Lent.{LendsValue};
ghost use Rattle.turn_lock.specs.Turns.{StartsWith, fresh_pass, sees, Shows, gives_number, gets_number, joined};
ghost use Rattle.turn_lock.specs.Rule.{viewed, giver, receiver};

use crate::lock::{Pass, Turn, TurnLock};
use crate::ticket_steps::{Appends, Compares, Draws, Ends, Finds, Gives, Number, Serves};
use crate::told::Told;
use crate::view::View;
use atomic_table::{Refused, Seat, Table};
use crossbeam_utils::sync::EventCount;
use crossbeam_utils::{Backoff, CachePadded};
use std::alloc::{AllocError, Global};
use std::marker::Brand;
use std::sync::Wait;

/// How often a caller that finds the lock taken looks again before it draws a ticket, and how often again before it
/// sleeps: some hundred microseconds each.
const SPINS: u32 = 1000;

impl<T: Told> TurnLock<T> {
    /// A free lock round a value with no entry, and its first pass, which has the number 0 and gives the others from 1
    /// on. The error is that memory was refused: the value is then dropped.
    pub fn new(alloc: Global, value: T) -> Result<(TurnLock<T>, Pass<T::Entry>), AllocError>
        requires { T.told value ≡ [] }
        ensures { IfOk result (λ r. IsPassOf r.0 r.1 × (knows r.1 ≡ fresh_pass)) }
    {
        let boxed = Box::new(alloc, value)?;
        let mut slots = Vec::with_capacity(alloc, 1)?;
        slots.push(Some(boxed))?;
        match Table::new(alloc, &[0, 0], slots, &()) {
            Ok((table, seat)) => {
                let ends = CachePadded::new(EventCount::new());
                Ok((TurnLock { table, ends }, seated(0, 1, seat)))
            }
            Err(Refused { slots: _ }) => Err(AllocError),
        }
    }

    /// Waits for the pass's turn, in which the value is its own. The value's list then begins with what the pass has
    /// seen, and has of the pass's number, and of each number that it keeps as ended, just the entries that were made
    /// under it.
    pub fn take<'a, R: Wait>(&'a self, rt: &R, pass: Pass<T::Entry>) -> Turn<'a, T>
        requires { IsPassOf self.now pass }
        ensures lock { turn_lock result ≡ self.now }
        ensures pass { turn_knows result ≡ sees (knows pass) (T.told (turn_value result)) }
        ensures shows { Shows T.by (knows pass) (T.told (turn_value result)) }
    {
        let number = pass.number;
        let next = pass.next;
        let (value, seat) = self.wait(rt, pass.into_seat());
        Turn {
            lock: self,
            value,
            number,
            next,
            seat,
        }
    }

    /// Two passes of one. The first keeps its number, and `number + 1` is the next that it may give; the second has
    /// `number` and has seen as much. The numbers between, which nobody gets, are kept as ended without an entry.
    /// `number` is at least the pass's `next`, and below 2^32 - 1: a pass that was itself given has no number to give.
    pub fn split(&self, pass: Pass<T::Entry>, number: u32) -> (Pass<T::Entry>, Pass<T::Entry>)
        requires lock { IsPassOf self.now pass }
        requires number { ((knows pass).next ≤ number) × (number + 1 < 2 ^ 32) }
        ensures lock { IsPassOf self.now result.0 × IsPassOf self.now result.1 }
        ensures first { knows result.0 ≡ gives_number number (knows pass) }
        ensures second { knows result.1 ≡ gets_number number (knows pass) }
    {
        let own = pass.number;
        let mut seat = pass.into_seat();
        let other = self.cut::<Brand>(&mut seat, number);
        (
            seated(own, number + 1, seat),
            seated(number, u32::MAX, other),
        )
    }

    // The same on a seat, where the number is known to the step's type.
    fn cut<N: Number>(
        &self,
        seat: &mut Seat<Option<Box<T>>, View<T::Entry>>,
        number: u32,
    ) -> Seat<Option<Box<T>>, View<T::Entry>>
        requires seat { IsIdle self.now seat.old × (seat.old.me.0.next ≤ number) × (number + 1 < 2 ^ 32) }
        requires number { number ≡ N.number }
        ensures first { (seat.new.table_id ≡ seat.old.table_id) × (seat.new.me ≡ (giver number seat.old.me.0, [])) }
        ensures second { (result.table_id ≡ seat.old.table_id) × (result.me ≡ (receiver number seat.old.me.0, [])) }
    {
        self.table.shared.split_seat::<Gives<N>>(seat)
    }

    /// One pass of two, which has seen the longer of what these have seen. It keeps the number of the first, and that
    /// of the second as ended, with the entries that were made under it.
    pub fn join(&self, a: Pass<T::Entry>, b: Pass<T::Entry>) -> Pass<T::Entry>
        requires { IsPassOf self.now a × IsPassOf self.now b }
        ensures lock { IsPassOf self.now result }
        ensures joined { knows result ≡ joined (knows a) (knows b) }
        ensures seen { StartsWith (knows result).seen (knows a).seen × StartsWith (knows result).seen (knows b).seen }
    {
        let number = a.number;
        let next = a.next;
        let mut seat = a.into_seat();
        self.table
            .shared
            .join_seat::<Ends>(&mut seat, b.into_seat());
        self.table.shared.load::<Compares>(&mut seat, 0);
        seated(number, next, seat)
    }

    /// Waits for the pass's turn, takes the value out and closes the lock. The value's list is as at a `take`.
    pub fn finish<R: Wait>(self, rt: &R, pass: Pass<T::Entry>) -> T
        requires { IsPassOf self pass }
        ensures { Shows T.by (knows pass) (T.told result) }
    {
        Box::into_inner(self.wait(rt, pass.into_seat()).0)
    }

    // Lets others have their turns first, for a while. Who draws a ticket where the lock is free has its turn at once;
    // a thread that has a ticket and doesn't run keeps all behind it waiting.
    fn hesitate(&self) {
        let shared = &self.table.shared;
        let backoff = Backoff::new();
        for _ in 0..SPINS {
            if shared.peek(0) == shared.peek(1) {
                return;
            }
            backoff.snooze();
        }
    }

    // Sleeps until a turn ends, unless the ticket is served. Whoever ends one changes the word before it looks for
    // sleepers.
    fn sleep<R: Wait>(&self, rt: &R, ticket: u64) {
        let key = self.ends.prepare_wait();
        if self.table.shared.peek(1) != ticket {
            key.wait(rt);
        }
    }

    // Draws a ticket, waits until it is served, and takes the value out. A waiter spins for a short while, then leaves
    // the processor to others between two looks, and at last sleeps.
    fn wait<R: Wait>(
        &self,
        rt: &R,
        mut seat: Seat<Option<Box<T>>, View<T::Entry>>,
    ) -> (Box<T>, Seat<Option<Box<T>>, View<T::Entry>>)
        requires { IsIdle self.now seat }
        ensures seat { IsAtTurn self.now result.1 }
        ensures pass { seat_knows result.1 ≡ sees (seat_knows seat) (T.told result.0.value) }
        ensures shows { Shows T.by (seat_knows seat) (T.told result.0.value) }
    {
        self.hesitate();
        let shared = &self.table.shared;
        let ticket = shared.fetch_add::<Draws>(&mut seat, 0, 1);
        let backoff = Backoff::new();
        let mut looks = 0;
        for _ in rt.forever() {
            if shared.load::<Finds<T>>(&mut seat, 1) == ticket {
                let value = shared.exchange(&mut seat, 0, None).unwrap();
                return (value, seat);
            }
            if looks < SPINS {
                looks += 1;
                backoff.snooze();
            } else {
                self.sleep(rt, ticket);
            }
        }
        unreachable!()
    }
}

impl<'a, T: Told> Turn<'a, T> {
    /// The value, to be read and changed.
    pub fn get(&mut self) -> &mut T
        ensures* writes_back { sem 𝓛 (LendsValue T.row T.Entry.row T.Told self.entry result) }
        ensures value { result.now ≡ turn_value self.old }
    {
        &mut self.value
    }

    /// Notes that the value's list has one further entry than at the take, of this pass's number. The pass has then
    /// seen the whole list, and keeps its turn, in which it may add another entry.
    pub fn note(self) -> Turn<'a, T>
        requires { Adds T.told T.by (turn_knows self) (turn_value self) true }
        ensures lock { turn_lock result ≡ turn_lock self.entry }
        ensures value { turn_value result ≡ turn_value self.entry }
        ensures view { Added T.told T.by (turn_knows self.entry) (turn_value self.entry) true (turn_knows result) }
    {
        let Turn {
            lock,
            value,
            number,
            next,
            mut seat,
        } = self;
        let shared = &lock.table.shared;
        match shared.exchange(&mut seat, 0, Some(value)) {
            None => {}
            Some(_) => unreachable!(),
        }
        shared.load::<Appends<T>>(&mut seat, 1);
        let value = shared.exchange(&mut seat, 0, None).unwrap();
        Turn {
            lock,
            value,
            number,
            next,
            seat,
        }
    }

    /// Puts the value back, and lets the next pass have its turn. `added` says whether the value's list has one further
    /// entry than at the take, of this pass's number. The pass has then seen the whole list.
    pub fn give(self, added: bool) -> Pass<T::Entry>
        requires { Adds T.told T.by (turn_knows self) (turn_value self) added }
        ensures lock { IsPassOf (turn_lock self.entry) result }
        ensures view { Added T.told T.by (turn_knows self.entry) (turn_value self.entry) added (knows result) }
    {
        let Turn {
            lock,
            value,
            number,
            next,
            mut seat,
        } = self;
        let shared = &lock.table.shared;
        match shared.exchange(&mut seat, 0, Some(value)) {
            None => {}
            Some(_) => unreachable!(),
        }
        if added {
            shared.load::<Appends<T>>(&mut seat, 1);
        }
        shared.fetch_add::<Serves>(&mut seat, 1, 1);
        lock.ends.notify_all();
        seated(number, next, seat)
    }
}

/// A pass that has this seat at the table, which waits for nothing.
fn seated<T, E>(number: u32, next: u32, seat: Seat<Option<T>, View<E>>) -> Pass<E>
    requires idle { (seat.me.0.stage ≡ Idle) × (seat.me.1 ≡ []) }
    requires numbers { (seat.me.0.number ≡ number) × (seat.me.0.next ≡ next) }
    ensures table { result.badge.table_id ≡ seat.table_id }
    ensures knows { knows result ≡ seat_knows seat }
{
    Pass {
        number,
        next,
        badge: seat.into_badge(),
    }
}

impl<E> Pass<E> {
    /// The pass's seat at the table.
    fn into_seat<T>(self) -> Seat<Option<T>, View<E>>
        ensures table { result.table_id ≡ self.badge.table_id }
        ensures me { result.me ≡ (viewed self.badge.views, []) }
    {
        let Pass {
            number: _,
            next: _,
            badge,
        } = self;
        badge.into_seat()
    }

    /// The number under which the pass makes entries.
    pub fn number(&self) -> u32
        ensures { result ≡ (knows self.now).number }
    {
        self.number
    }

    /// The lowest number that the pass may give. It is `u32::MAX` where it may give none.
    pub fn next(&self) -> u32
        ensures { result ≡ (knows self.now).next }
    {
        self.next
    }
}
