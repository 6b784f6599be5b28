//! The words of a board: four of the server, and behind them one for each place.
ghost use Rattle.std.specs.Prelude.{◌≡◌, cond};
ghost use Rattle.hx_base.specs.declared.place_word.PlaceState.{PlaceState};
ghost use Rattle.hx_base.specs.PlaceWords.{IsPlaceState, place_word};
ghost use Rattle.hx_pool.specs.Table.{found_of, spot_no};
ghost use Rattle.hx_places.specs.Words.{IsPlaceWord, spot_of, word_no};

use hx_base::{PlaceNo, PlaceState, unpack_place};
use hx_pool::Found;

/// The word of the drain state: 0 ready, 1 draining.
pub(crate) const GATE: usize = 0;

/// The word of the next connection's number, from 1 on.
pub(crate) const NEXT: usize = 1;

/// The word of the count.
pub(crate) const COUNT: usize = 2;

/// The word of the purge interval.
pub(crate) const ROUND: usize = 3;

/// How many words stand before those of the places.
pub(crate) const HEADS: usize = 4;

/// How many places a row has.
pub(crate) const ROW: usize = 64;

/// The slot of a place: they are counted over all rows.
pub(crate) fn slot_at(place: PlaceNo) -> usize
    ensures { result ≡ spot_no place }
{
    ROW * place.row as usize + place.place as usize
}

/// The word of a place.
pub(crate) fn word_at(place: PlaceNo) -> usize
    ensures { result ≡ word_no place }
{
    slot_at(place) + HEADS
}

/// The word of a drain state.
pub(crate) fn gate_word(draining: bool) -> u64
    ensures { result ≡ cond draining 1 0 }
{
    if draining { 1 } else { 0 }
}

/// What a place's word shows to one who looks.
pub(crate) fn shown_by(word: u64) -> Found
    requires { IsPlaceWord word }
    ensures { (s : PlaceState) → IsPlaceState s → place_word s ≡ word
        → result ≡ found_of (spot_of s) }
{
    match unpack_place(word) {
        Some(PlaceState::Resting(face)) => Found::Resting(face),
        Some(PlaceState::Taken(_)) => Found::Leaving,
        _ => Found::Empty,
    }
}
