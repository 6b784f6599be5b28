//! A thread's seat at a board.
ghost use Rattle.std.specs.Prelude.{◌≡◌, ◌≢◌, ◌+◌, ◌*◌, ◌<◌, ◌≤◌, [], None, MatchResult};
ghost use Rattle.hx_pool.specs.declared.entries.Entry.TheVariants.{Open, Close, Look, Up, Down, Count};
ghost use Rattle.hx_pool.specs.declared.entries.Entry.TheVariants.{Gate, SetGate, Round};
ghost use Rattle.hx_pool.specs.History.{plain, opens_of};
ghost use Rattle.hx_pool.specs.Opening.{open_limit, HasConn};
ghost use Rattle.hx_pool.specs.Parking.{parked};
ghost use Rattle.hx_places.specs.Turns.{Settled};

use crate::rule::Places;
use crate::view::View;
use atomic_table::Shared;
use hx_base::{ConnId, Face, Faced, Millis, PlaceNo, PoolRules, SessionNo, ThreadNo};
use hx_pool::{BoardTerms, Found};
use std::marker::{Brand, Model};

/// A place that is being filled. It must be spent: `publish` takes it.
pub struct Claim {
    pub place: PlaceNo,
}

/// A thread's seat. Each call makes one step and one entry, but `claim` and `tell`, which make no
/// entry, and a `take_at` that takes, which makes two. No call waits or takes memory.
#[derive(Drop)]
pub struct PlaceSeat<'a, V: Faced> {
    pub(crate) shared: &'a Shared<Option<V>, View, BoardTerms, Places>,
    pub(crate) token: atomic_table::Seat<Option<V>, View>,
    pub(crate) terms: BoardTerms,
    pub(crate) thread: ThreadNo,
    /// How many connections it opened.
    pub(crate) opened: u64,
}

impl<'a, V: Faced> Model for PlaceSeat<'a, V> {
    ghost use Rattle.std.specs.Prelude.{◌≡◌, ◌+◌, ◌*◌};
    ghost use Rattle.hx_places.specs.Views.{carried_of};
    ghost use Rattle.hx_places.specs.Seats.{PlaceView, KeepsSeat};

    ghost Value = { PlaceView };

    ghost view = { λ s. record { board = s.token.table_id; view = s.token.me.0 } };

    ghost invariant = { λ s. (s.token.table_id ≡ s.shared.now.table_id)
        × (s.shared.now.table_id.words ≡ 64 * s.terms.threads + 4)
        × (s.shared.now.table_id.slots ≡ 64 * s.terms.threads)
        × (s.shared.now.key ≡ s.terms)
        × (s.token.me.1 ≡ carried_of s.token.me.0.hand)
        × KeepsSeat s.terms s.thread s.opened s.token.me.0 };
}

impl<'a, V: Faced> PlaceSeat<'a, V> {
    ghost use Rattle.hx_places.specs.Asks.{CanClaim, CanPublish, CanTake, HasUp, IsAdmitted};
    ghost use Rattle.hx_places.specs.Asks.{IsAtEase, IsInTurn, MayReadGate};
    ghost use Rattle.hx_places.specs.Seats.{turn, history_of, claiming_at, first_seat, IsOfBoard};
    ghost use Rattle.hx_places.specs.Seats.{Notes, Publishes, TakesAt, Misses, Told, Stands};
    ghost use Rattle.hx_places.specs.Views.{worker};

    pub(crate) fn new(
        shared: &'a Shared<Option<V>, View, BoardTerms, Places>,
        token: atomic_table::Seat<Option<V>, View>,
        terms: BoardTerms,
        thread: ThreadNo,
    ) -> PlaceSeat<'a, V>
        requires seated { (token.table_id ≡ shared.now.table_id) × (shared.now.key ≡ terms) }
        requires sized { (shared.now.table_id.words ≡ 64 * terms.threads + 4)
            × (shared.now.table_id.slots ≡ 64 * terms.threads) }
        requires few { (terms.threads ≤ 16) × (thread.0 < terms.threads) }
        requires unused { token.me ≡ (worker terms thread, []) }
        ensures { result ≡ first_seat terms thread token.table_id }
    {
        PlaceSeat {
            shared,
            token,
            terms,
            thread,
            opened: 0,
        }
    }

    /// The thread whose row is its own. What the seat has seen stands in one history.
    pub fn thread(&self) -> ThreadNo
        ensures thread { result ≡ self.now.view.thread }
        ensures stands { Stands self.now.view }
    {
        self.thread
    }

    pub fn rules(&self) -> PoolRules
        ensures { result ≡ self.now.view.terms.rules }
    {
        self.terms.rules
    }

    /// How many rows the board has, one for each thread.
    pub fn threads(&self) -> u8
        ensures { result ≡ self.now.view.terms.threads }
    {
        self.terms.threads
    }

    /// The moment from which purge intervals count.
    pub fn start(&self) -> Millis
        ensures { result ≡ self.now.view.terms.start }
    {
        self.terms.start
    }

    /// How many connections it opened.
    pub fn opens(&self) -> u64
        ensures { result ≡ opens_of self.now.view.mine }
    {
        self.opened
    }

    /// Draws the next connection's number for session `n`: an Open. The limit keeps the numbers of
    /// sixteen seats together below 2^40.
    pub fn draw(&mut self, n: SessionNo) -> ConnId
        requires session { n.0 ≢ 0 }
        requires room { opens_of self.old.view.mine < open_limit self.old.view.thread }
        requires ease { IsAtEase self.old }
        ensures notes { Notes self.old self.new (plain (Open self.old.view.thread n result)) }
        ensures id { (0 < result.0) × (result.0 < 1099511627776) }
    {
        self.drawn::<Brand>(n)
    }

    /// Reads a place: a Look.
    pub fn look(&mut self, place: PlaceNo) -> Found
        requires place { IsOfBoard self.old place }
        requires ease { IsAtEase self.old }
        ensures notes { Notes self.old self.new (plain (Look self.old.view.thread place result)) }
    {
        self.looked::<Brand>(place)
    }

    /// Notes that session `n` closes its connection: a Close.
    pub fn note_close(&mut self, n: SessionNo, id: ConnId)
        requires held { HasConn (history_of self.old None) n id }
        requires ease { IsAtEase self.old }
        ensures notes { Notes self.old self.new (plain (Close self.old.view.thread n id)) }
    {
        self.noted_close::<Brand>(n, id)
    }

    /// Counts up, and answers the count before: an Up. A Park or a Down follows it.
    pub fn up(&mut self) -> u64
        requires due { (turn self.old).due ≡ Settled }
        requires ease { IsAtEase self.old }
        ensures notes { Notes self.old self.new (plain (Up self.old.view.thread result)) }
    {
        self.counted_up::<Brand>()
    }

    /// Counts down, and answers the count before: a Down. It follows an Up that no Park follows, and
    /// each Take.
    pub fn down(&mut self) -> u64
        requires due { (turn self.old).due ≢ Settled }
        requires ease { IsAtEase self.old }
        ensures notes { Notes self.old self.new (plain (Down self.old.view.thread result)) }
    {
        self.counted_down::<Brand>()
    }

    /// Reads the count: a Count.
    pub fn count(&mut self) -> u64
        requires ease { IsAtEase self.old }
        ensures notes { Notes self.old self.new (plain (Count self.old.view.thread result)) }
    {
        self.counted::<Brand>()
    }

    /// Reads whether the server drains: a Gate. It is the next call after `publish`.
    pub fn gate(&mut self) -> bool
        requires ease { MayReadGate (turn self.old).call }
        ensures notes { Notes self.old self.new (plain (Gate self.old.view.thread result)) }
    {
        self.read_gate::<Brand>()
    }

    /// Sets whether the server drains: a SetGate.
    pub fn set_gate(&mut self, draining: bool)
        requires ease { IsAtEase self.old }
        ensures notes { Notes self.old self.new (plain (SetGate self.old.view.thread draining)) }
    {
        self.wrote_gate::<Brand>(draining)
    }

    /// Raises the purge interval to `k` where it is lower, and answers the one before: a Round.
    pub fn raise(&mut self, k: u64) -> u64
        requires ease { IsAtEase self.old }
        ensures notes { Notes self.old self.new (plain (Round self.old.view.thread k result)) }
    {
        self.raised::<Brand>(k)
    }

    /// Starts to fill an own place that was last seen vacant. No entry is made.
    pub fn claim(&mut self, place: PlaceNo) -> Claim
        requires claims { CanClaim self.old place }
        requires ease { IsAtEase self.old }
        ensures claim { result.place ≡ place }
        ensures claims { self.new ≡ claiming_at self.old place }
    {
        self.filled(place);
        Claim { place }
    }

    /// Lets the connection of session `n` rest at the claimed place: a Park. The next call is `gate`,
    /// and where that shows draining the one after it is `take_at` of the same place and face.
    pub fn publish(&mut self, claim: Claim, n: SessionNo, v: V)
        requires publishes { CanPublish self.old claim.place n (V.shows v) }
        requires up { HasUp self.old }
        requires admitted { IsAdmitted self.old }
        requires ease { IsAtEase self.old }
        ensures notes { Publishes self.old self.new
            (parked self.old.view.thread n claim.place (V.shows v)) }
    {
        let Claim { place } = claim;
        self.published::<Brand>(place, n, v)
    }

    /// Takes the connection that rests at the place, where it has this face: a Take, and a Free once
    /// the value is out. Else a Look, with what it found. `first`: for the first request of session
    /// `n`. After a take the next call on the count is `down`.
    pub fn take_at(
        &mut self,
        n: SessionNo,
        first: bool,
        place: PlaceNo,
        face: Face,
    ) -> Result<V, Found>
        requires place { IsOfBoard self.old place }
        requires takes { CanTake self.old n first face }
        requires turn { IsInTurn self.old place face }
        ensures answer { MatchResult result
            (λ v. TakesAt self.old self.new n first place face (V.shows v))
            (λ found. Misses self.old self.new place face found) }
    {
        self.took_at::<Brand, Brand>(n, first, place, face)
    }

    /// From now on the other has seen what this one has seen.
    pub fn tell(&mut self, other: &mut Self)
        requires board { self.old.board ≡ other.old.board }
        requires apart { self.old.view.thread.0 ≢ other.old.view.thread.0 }
        requires ease { IsAtEase self.old × IsAtEase other.old }
        ensures same { self.new ≡ self.old }
        ensures told { Told self.old other.old other.new }
    {
        self.told(other)
    }
}
