//! The rule of a board, and what each kind of step tells.

use crate::view::View;
use atomic_table::{Join, Play, Split, TableRule};
use hx_base::Faced;
use hx_pool::BoardTerms;
use std::marker::{Brand, PhantomData};

pub(crate) struct Places;

impl<V: Faced> TableRule<Option<V>, View, BoardTerms> for Places {
    ghost use Rattle.hx_places.specs.Rule.{Kept};
    ghost use Rattle.hx_places.specs.Views.{maker};

    ghost holds = { λ terms s. Kept V.shows terms s };

    ghost first = { maker };
}

/// The entry that a step makes, by the number that it finds. A call at `Brand` picks it.
pub(crate) trait Says {
    ghost use Rattle.std.specs.Prelude.{ℕ};
    ghost use Rattle.hx_pool.specs.declared.entries.Note.{Note};

    ghost note: { ℕ → Note };
}

impl Says for Brand {
    ghost use Rattle.hx_places.specs.Views.{no_note};

    ghost note = { λ _. no_note };
}

/// A connection's number is drawn.
pub(crate) struct Draw<W> {
    note: PhantomData<W>,
}

impl<S, W: Says> Play<S, View> for Draw<W> {
    ghost use Rattle.hx_places.specs.Views.{drew};

    ghost then = { drew W.note };
}

/// A place's word is read.
pub(crate) struct LookAt<W> {
    note: PhantomData<W>,
}

impl<S, W: Says> Play<S, View> for LookAt<W> {
    ghost use Rattle.hx_places.specs.Views.{looked};

    ghost then = { looked W.note };
}

/// An entry is made at one of the first words, and no slot moves.
pub(crate) struct Adds<W> {
    note: PhantomData<W>,
}

impl<S, W: Says> Play<S, View> for Adds<W> {
    ghost use Rattle.hx_places.specs.Views.{noted};

    ghost then = { noted W.note };
}

/// A place is claimed. No entry is made.
pub(crate) struct Fill;

impl<V> Play<Option<V>, View> for Fill {
    ghost use Rattle.hx_places.specs.Views.{claimed};

    ghost then = { claimed };
}

/// What lies in the claimed place's slot rests from now on.
pub(crate) struct Publish<W> {
    note: PhantomData<W>,
}

impl<S, W: Says> Play<S, View> for Publish<W> {
    ghost use Rattle.hx_places.specs.Views.{published};

    ghost then = { published W.note };
}

/// What rests is taken, or another word is found.
pub(crate) struct Take<W> {
    note: PhantomData<W>,
}

impl<V: Faced, W: Says> Play<Option<V>, View> for Take<W> {
    ghost use Rattle.hx_places.specs.Views.{took};

    ghost then = { took V.shows W.note };
}

/// The place that was taken from is vacant again.
pub(crate) struct Vacate<W> {
    note: PhantomData<W>,
}

impl<S, W: Says> Play<S, View> for Vacate<W> {
    ghost use Rattle.hx_places.specs.Views.{vacated};

    ghost then = { vacated W.note };
}

/// A new thread's seat is cut off the board's own.
pub(crate) struct Give;

impl Split<View> for Give {
    ghost use Rattle.hx_places.specs.Views.{more_given, worker};

    ghost left = { more_given };

    ghost right = { λ v. worker v.terms v.thread };
}

/// What a seat has seen goes to another one.
pub(crate) struct Tell;

impl Split<View> for Tell {
    ghost use Rattle.hx_places.specs.Views.{copy_of};

    ghost left = { λ v. v };

    ghost right = { copy_of };
}

impl Join<View> for Tell {
    ghost use Rattle.hx_places.specs.Views.{told_by, spent};

    ghost both = { told_by };

    ghost spent = { spent };
}

/// What was told is seen.
pub(crate) struct Hear;

impl<S> Play<S, View> for Hear {
    ghost use Rattle.hx_places.specs.Views.{heard};

    ghost then = { heard };
}
