//! The rule of a board, and what each kind of step tells.
ghost use Rattle.std.specs.Prelude.{◌≡◌};

use atomic_table::{Join, Play, Split, TableRule};
use hx_base::Faced;
use hx_pool::BoardTerms;
use hx_resting::{Rows, View};
use std::marker::{Brand, PhantomData};

/// The word that is 1 while a seat has the value.
pub(crate) const HELD: usize = 0;

/// The word that counts the entries of the history, modulo 2^64.
pub(crate) const NOTED: usize = 1;

pub(crate) struct OneValue;

impl<V: Faced> TableRule<Option<Rows<V>>, View, BoardTerms> for OneValue {
    ghost use Rattle.hx_lockboard.specs.Rule.{Kept};
    ghost use Rattle.hx_lockboard.specs.Views.{maker};

    ghost holds = { λ terms s. Kept V.shows terms s };

    ghost first = { maker };
}

/// A new thread's seat is cut off the board's own.
pub(crate) struct Give;

impl Split<View> for Give {
    ghost use Rattle.hx_lockboard.specs.Views.{more_given, worker};

    ghost left = { more_given };

    ghost right = { λ v. worker v.terms v.thread };
}

/// The seat gets the value, or finds it away.
pub(crate) struct Get;

impl<V: Faced> Play<Option<Rows<V>>, View> for Get {
    ghost use Rattle.hx_lockboard.specs.Views.{got};

    ghost then = { got V.shows };
}

/// What a step adds. A call at `Brand` picks it.
pub(crate) trait Says {
    ghost use Rattle.hx_pool.specs.declared.entries.Note.{Note};

    ghost note: { Note };
}

impl Says for Brand {
    ghost use Rattle.hx_lockboard.specs.Views.{no_note};

    ghost note = { no_note };
}

/// An entry is made.
pub(crate) struct Adds<W> {
    note: PhantomData<W>,
}

impl<S, W: Says> Play<S, View> for Adds<W> {
    ghost use Rattle.hx_lockboard.specs.Views.{wrote};

    ghost then = { wrote W.note };
}

/// The value goes back.
pub(crate) struct Return;

impl<S> Play<S, View> for Return {
    ghost use Rattle.hx_lockboard.specs.Views.{gave};

    ghost then = { gave };
}

/// What a seat has seen goes to another one.
pub(crate) struct Tell;

impl Split<View> for Tell {
    ghost use Rattle.hx_lockboard.specs.Views.{copy_of};

    ghost left = { λ v. v };

    ghost right = { copy_of };
}

impl Join<View> for Tell {
    ghost use Rattle.hx_lockboard.specs.Views.{told_by, spent};

    ghost both = { told_by };

    ghost spent = { spent };
}

/// What was told is seen.
pub(crate) struct Hear;

impl<S> Play<S, View> for Hear {
    ghost use Rattle.hx_lockboard.specs.Views.{heard};

    ghost then = { heard };
}
