//! The steps of a seat, one function for each kind. Nothing else touches the table. A call at `Brand`
//! picks the entry that the step makes.
ghost use Rattle.std.specs.Prelude.{◌≡◌, ◌≢◌, ℕ, ◌<◌, ◌==◌, None, MatchResult};
ghost use Rattle.hx_base.specs.declared.place_word.PlaceState.{PlaceState};
ghost use Rattle.hx_base.specs.declared.place_word.PlaceState.TheVariants as state;
ghost use Rattle.hx_base.specs.PlaceWords.{IsPlaceState, place_word};
ghost use Rattle.hx_pool.specs.declared.entries.Entry.TheVariants.{Open, Free, Close, Look};
ghost use Rattle.hx_pool.specs.declared.entries.Entry.TheVariants.{Up, Down, Count, Gate, SetGate, Round};
ghost use Rattle.hx_pool.specs.Table.{found_of};
ghost use Rattle.hx_pool.specs.History.{plain, opens_of};
ghost use Rattle.hx_pool.specs.Opening.{open_limit, HasConn};
ghost use Rattle.hx_pool.specs.Parking.{parked};
ghost use Rattle.hx_pool.specs.Taking.{taken};
ghost use Rattle.hx_places.specs.Turns.{Settled};
ghost use Rattle.hx_places.specs.Words.{spot_of};

use crate::rule::{Adds, Draw, Fill, Hear, LookAt, Publish, Says, Take, Tell, Vacate};
use crate::seat::PlaceSeat;
use crate::words::{COUNT, GATE, NEXT, ROUND, gate_word, shown_by, slot_at, word_at};
use hx_base::{ConnId, Face, Faced, PlaceNo, PlaceState, SessionNo, pack_place};
use hx_pool::Found;

impl<'a, V: Faced> PlaceSeat<'a, V> {
    ghost use Rattle.hx_places.specs.Asks.{CanClaim, CanPublish, CanTake, HasUp};
    ghost use Rattle.hx_places.specs.Asks.{IsAtEase, IsInTurn, MayReadGate};
    ghost use Rattle.hx_places.specs.Seats.{turn, history_of, claiming_at, IsOfBoard};
    ghost use Rattle.hx_places.specs.Seats.{Notes, Publishes, TakesAt, Misses, Told};

    pub(crate) fn drawn<W: Says>(&mut self, n: SessionNo) -> ConnId
        requires session { n.0 ≢ 0 }
        requires room { opens_of self.old.view.mine < open_limit self.old.view.thread }
        requires ease { IsAtEase self.old }
        requires said { (k : ℕ)
            → W.note k ≡ plain (Open self.old.view.thread n (record { 0 = k })) }
        ensures notes { Notes self.old self.new (plain (Open self.old.view.thread n result)) }
        ensures id { (0 < result.0) × (result.0 < 1099511627776) }
    {
        let id = self.shared.fetch_add::<Draw<W>>(&mut self.token, NEXT, 1);
        self.opened += 1;
        ConnId(id)
    }

    pub(crate) fn looked<W: Says>(&mut self, place: PlaceNo) -> Found
        requires place { IsOfBoard self.old place }
        requires ease { IsAtEase self.old }
        requires said { (s : PlaceState) → IsPlaceState s → W.note (place_word s)
            ≡ plain (Look self.old.view.thread place (found_of (spot_of s))) }
        ensures notes { Notes self.old self.new (plain (Look self.old.view.thread place result)) }
    {
        let at = word_at(place);
        let word = self.shared.load::<LookAt<W>>(&mut self.token, at);
        shown_by(word)
    }

    pub(crate) fn noted_close<W: Says>(&mut self, n: SessionNo, id: ConnId)
        requires held { HasConn (history_of self.old None) n id }
        requires ease { IsAtEase self.old }
        requires said { (k : ℕ) → W.note k ≡ plain (Close self.old.view.thread n id) }
        ensures notes { Notes self.old self.new (plain (Close self.old.view.thread n id)) }
    {
        self.shared.load::<Adds<W>>(&mut self.token, NEXT);
    }

    pub(crate) fn counted_up<W: Says>(&mut self) -> u64
        requires due { (turn self.old).due ≡ Settled }
        requires ease { IsAtEase self.old }
        requires said { (k : ℕ) → W.note k ≡ plain (Up self.old.view.thread k) }
        ensures notes { Notes self.old self.new (plain (Up self.old.view.thread result)) }
    {
        self.shared.fetch_add::<Adds<W>>(&mut self.token, COUNT, 1)
    }

    pub(crate) fn counted_down<W: Says>(&mut self) -> u64
        requires due { (turn self.old).due ≢ Settled }
        requires ease { IsAtEase self.old }
        requires said { (k : ℕ) → W.note k ≡ plain (Down self.old.view.thread k) }
        ensures notes { Notes self.old self.new (plain (Down self.old.view.thread result)) }
    {
        self.shared.fetch_sub::<Adds<W>>(&mut self.token, COUNT, 1)
    }

    pub(crate) fn counted<W: Says>(&mut self) -> u64
        requires ease { IsAtEase self.old }
        requires said { (k : ℕ) → W.note k ≡ plain (Count self.old.view.thread k) }
        ensures notes { Notes self.old self.new (plain (Count self.old.view.thread result)) }
    {
        self.shared.load::<Adds<W>>(&mut self.token, COUNT)
    }

    pub(crate) fn read_gate<W: Says>(&mut self) -> bool
        requires ease { MayReadGate (turn self.old).call }
        requires said { (k : ℕ) → W.note k ≡ plain (Gate self.old.view.thread (k == 1)) }
        ensures notes { Notes self.old self.new (plain (Gate self.old.view.thread result)) }
    {
        self.shared.load::<Adds<W>>(&mut self.token, GATE) == 1
    }

    pub(crate) fn wrote_gate<W: Says>(&mut self, draining: bool)
        requires ease { IsAtEase self.old }
        requires said { (k : ℕ) → W.note k ≡ plain (SetGate self.old.view.thread draining) }
        ensures notes { Notes self.old self.new (plain (SetGate self.old.view.thread draining)) }
    {
        let word = gate_word(draining);
        self.shared.store::<Adds<W>>(&mut self.token, GATE, word);
    }

    pub(crate) fn raised<W: Says>(&mut self, k: u64) -> u64
        requires ease { IsAtEase self.old }
        requires said { (old : ℕ) → W.note old ≡ plain (Round self.old.view.thread k old) }
        ensures notes { Notes self.old self.new (plain (Round self.old.view.thread k result)) }
    {
        self.shared.fetch_max::<Adds<W>>(&mut self.token, ROUND, k)
    }

    pub(crate) fn filled(&mut self, place: PlaceNo)
        requires claims { CanClaim self.old place }
        ensures claims { self.new ≡ claiming_at self.old place }
    {
        let at = word_at(place);
        let word = pack_place(PlaceState::Filling);
        self.shared.store::<Fill>(&mut self.token, at, word);
    }

    /// The value lies in the slot before the word shows it.
    pub(crate) fn published<W: Says>(&mut self, place: PlaceNo, n: SessionNo, v: V)
        requires publishes { CanPublish self.old place n (V.shows v) }
        requires up { HasUp self.old }
        requires ease { IsAtEase self.old }
        requires said { (k : ℕ) → W.note k ≡ parked self.old.view.thread n place (V.shows v) }
        ensures notes { Publishes self.old self.new
            (parked self.old.view.thread n place (V.shows v)) }
    {
        let slot = slot_at(place);
        let at = word_at(place);
        let face = v.face();
        match self.shared.exchange(&mut self.token, slot, Some(v)) {
            None => {}
            Some(_) => unreachable!(),
        }
        let word = pack_place(PlaceState::Resting(face));
        self.shared.store::<Publish<W>>(&mut self.token, at, word);
    }

    /// The value is out of the slot before the word shows the place vacant.
    pub(crate) fn took_at<W: Says, F: Says>(
        &mut self,
        n: SessionNo,
        first: bool,
        place: PlaceNo,
        face: Face,
    ) -> Result<V, Found>
        requires place { IsOfBoard self.old place }
        requires takes { CanTake self.old n first face }
        requires turn { IsInTurn self.old place face }
        // What the exchange says where it won and where it lost, and the store behind it.
        requires won { W.note (place_word (state.Resting face))
            ≡ taken self.old.view.thread n first place face }
        requires lost { (s : PlaceState) → IsPlaceState s → s ≢ state.Resting face
            → W.note (place_word s)
            ≡ plain (Look self.old.view.thread place (found_of (spot_of s))) }
        requires freed { (k : ℕ) → F.note k ≡ plain (Free self.old.view.thread place) }
        ensures answer { MatchResult result
            (λ v. TakesAt self.old self.new n first place face (V.shows v))
            (λ found. Misses self.old self.new place face found) }
    {
        let slot = slot_at(place);
        let at = word_at(place);
        let resting = pack_place(PlaceState::Resting(face));
        let leaving = pack_place(PlaceState::Taken(self.thread));
        let word = self
            .shared
            .compare_exchange::<Take<W>>(&mut self.token, at, resting, leaving);
        if word != resting {
            return Err(shown_by(word));
        }
        let vacant = pack_place(PlaceState::Vacant);
        let rested = self.shared.exchange(&mut self.token, slot, None);
        self.shared.store::<Vacate<F>>(&mut self.token, at, vacant);
        Ok(rested.unwrap())
    }

    pub(crate) fn told(&mut self, other: &mut Self)
        requires board { self.old.board ≡ other.old.board }
        ensures same { self.new ≡ self.old }
        ensures told { Told self.old other.old other.new }
    {
        let copy = self.shared.split_seat::<Tell>(&mut self.token);
        other.shared.join_seat::<Tell>(&mut other.token, copy);
        other.shared.load::<Hear>(&mut other.token, GATE);
    }
}
