//! What a thread parked in its row, in the order of parking.
ghost use Rattle.std.specs.Prelude.{◌≡◌, ◌<◌, [], ◌∷◌, ◌++◌, MatchOption, IfOk, true, false};
ghost use Rattle.hx_base.specs.PlaceWords.{IsFace};
ghost use Rattle.hx_resting.specs.Row.{fits as is_fit};
ghost use Rattle.hx_rows.specs.Stays.{NoneFits, LastFits, BestFits, Pulls, NoneAt, IsAt, others_at};

use hx_base::{Face, Mode, NoMemory};
use hx_resting::fits;
use std::alloc::Global;
use std::marker::Model;

/// How many places a row has.
pub(crate) const ROW: u8 = 64;

/// A connection that the row's thread parked.
#[derive(Clone, Copy, PartialEq, Eq, Debug)]
pub struct Stay {
    /// The place's number in the row, below 64.
    pub place: u8,
    pub face: Face,
}

/// The stays, no two of them at one place. The one parked last stands last.
#[derive(Drop)]
pub struct Stays {
    items: Vec<Stay>,
}

impl Model for Stays {
    ghost use Rattle.std.specs.Prelude.{◌≤◌, List};
    ghost use Rattle.std.specs.Vec.{vec_capacity};
    ghost use Rattle.hx_rows.specs.declared.stays.Stay.{Stay};
    ghost use Rattle.hx_rows.specs.Stays.{AreApart};

    ghost Value = { List Stay };

    ghost view = { λ s. s.items.items };

    ghost invariant = { λ s. AreApart s.items.items × (64 ≤ vec_capacity s.items) };
}

/// The last one that the request may take in the list that is meant.
fn last_in(stays: &[Stay], mode: Mode, first: bool, safe: bool) -> Option<usize>
    ensures { MatchOption result
        (NoneFits mode first safe stays.now)
        (LastFits mode first safe stays.now) }
{
    let mut i = stays.len();
    while i > 0 {
        i -= 1;
        if fits(mode, first, safe, stays[i].face.uses) {
            return Some(i);
        }
    }
    None
}

/// A first request looks at the safe list first, a later one at the idle list. The one parked last
/// comes first.
fn best(stays: &[Stay], mode: Mode, first: bool) -> Option<usize>
    ensures { MatchOption result
        (NoneFits mode first true stays.now × NoneFits mode first false stays.now)
        (BestFits mode first stays.now) }
{
    if let Some(i) = last_in(stays, mode, first, first) {
        return Some(i);
    }
    last_in(stays, mode, first, !first)
}

fn index_at(stays: &[Stay], place: u8) -> Option<usize>
    ensures { MatchOption result (NoneAt place stays.now) (λ i. IsAt place stays.now i) }
{
    for (i, stay) in stays.iter().enumerate() {
        if stay.place == place {
            return Some(i);
        }
    }
    None
}

impl Stays {
    /// None yet, with room for a row.
    pub fn new(alloc: Global) -> Result<Stays, NoMemory>
        ensures { IfOk result (λ s. s ≡ []) }
    {
        Ok(Stays {
            items: Vec::with_capacity(alloc, ROW as usize)?,
        })
    }

    /// Takes out the one that the request likes best.
    pub fn pull_best(&mut self, mode: Mode, first: bool) -> Option<Stay>
        ensures { MatchOption result
            ((self.new ≡ self.old) × NoneFits mode first true self.old
            × NoneFits mode first false self.old)
            (λ stay. Pulls mode first self.old stay self.new) }
    {
        let i = best(self.items.as_slice(), mode, first)?;
        Some(self.items.remove(i))
    }

    /// Lists a stay behind all others. Another one at its place goes: its connection is gone.
    pub fn add(&mut self, stay: Stay)
        requires inside { stay.place < 64 }
        requires face { IsFace stay.face }
        ensures { self.new ≡ others_at stay.place self.old ++ stay ∷ [] }
    {
        self.forget(stay.place);
        self.items.push_reserved(stay);
    }

    /// Drops the stay at a place where nothing rests any more.
    pub fn forget(&mut self, place: u8)
        ensures { self.new ≡ others_at place self.old }
    {
        if let Some(i) = index_at(self.items.as_slice(), place) {
            self.items.remove(i);
        }
    }
}
