//! The steps of passes on the lock's table, each with what it tells. No value of these types is made. Word 0 of the
//! table is the next ticket, word 1 the ticket that is served; the one slot holds the value, or nothing while a turn is
//! held. The history is in no word: the rule alone tells of it.

ghost use Rattle.std.specs.Prelude.{ℕ};
ghost use Rattle.turn_lock.specs.Rule.{drew, found, appended, served, giver, receiver, joiner, spent, compared, boxed};

use crate::told::Told;
use crate::view::View;
use atomic_table::{Join, Play, Split, TableRule};
use std::marker::{Brand, PhantomData};

/// The rule of the lock's table.
pub struct Turns<T> {
    value: PhantomData<T>,
}

impl<T: Told> TableRule<Option<Box<T>>, View<T::Entry>, ()> for Turns<T> {
    ghost use Rattle.turn_lock.specs.Rule.{Turned, first_view};

    ghost holds = { λ _. Turned (boxed T.told) T.by };

    ghost first = { λ _. first_view };
}

/// A ticket is drawn.
pub struct Draws;

impl<S, E> Play<S, View<E>> for Draws {
    ghost then = { drew };
}

/// Where the pass's ticket is served, it has seen the whole history and holds the slot.
pub struct Finds<T> {
    value: PhantomData<T>,
}

impl<T: Told> Play<Option<Box<T>>, View<T::Entry>> for Finds<T> {
    ghost then = { found (boxed T.told) T.by };
}

/// The history has the pass's entry. No word changes.
pub struct Appends<T> {
    value: PhantomData<T>,
}

impl<T: Told> Play<Option<Box<T>>, View<T::Entry>> for Appends<T> {
    ghost then = { appended (boxed T.told) T.by };
}

/// The slot is given back, and the next ticket is served.
pub struct Serves;

impl<S, E> Play<S, View<E>> for Serves {
    ghost then = { served };
}

/// A number that a pass gives.
pub trait Number {
    ghost number: { ℕ };
}

impl Number for Brand {
    ghost number = { 0 };
}

/// A second pass gets the number.
pub struct Gives<N> {
    number: PhantomData<N>,
}

impl<N: Number, E> Split<View<E>> for Gives<N> {
    ghost left = { giver N.number };

    ghost right = { receiver N.number };
}

/// The second pass is spent, and what it has seen is noted in the first.
pub struct Ends;

impl<E> Join<View<E>> for Ends {
    ghost both = { joiner };

    ghost spent = { spent };
}

/// Of what the pass has seen and what is noted in it, the longer is kept.
pub struct Compares;

impl<S, E> Play<S, View<E>> for Compares {
    ghost then = { compared };
}
