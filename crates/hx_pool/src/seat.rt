//! A thread's seat at the table of one server's idle connections.
ghost use Rattle.std.specs.Prelude.{◌≡◌, ◌≢◌, ℕ, [], List, Option, MatchOption, MatchResult, IfErr};
ghost use Rattle.hx_pool.specs.declared.entries.Entry.{Entry};
ghost use Rattle.hx_pool.specs.History.{entries_of};
ghost use Rattle.hx_pool.specs.SeatView.{History, StandsInOneHistory, AreOfOneBoard, last_list};
ghost use Rattle.hx_pool.specs.SeatView.{Calls, Grows, Stores, Tells};
ghost use Rattle.hx_pool.specs.Opening.{Opens, Closes, HasConn, ReadsGate, SetsDrain, SetsReady};
ghost use Rattle.hx_pool.specs.Parking.{CanPark, Parks, RefusesPark};
ghost use Rattle.hx_pool.specs.Taking.{TakesOwn, TakesNoneOwn};
ghost use Rattle.hx_pool.specs.Takeover.{TakesOver, RefusesTakeover};
ghost use Rattle.hx_pool.specs.Purge.{GivesQuota, GivesNoQuota};
ghost use Rattle.hx_pool.specs.Purge.{StandsAt, PurgesOne, PurgesNone, KeepsQuota};
ghost use Rattle.hx_pool.specs.Drain.{DrainsOne, DrainsNone};
ghost use Rattle.hx_pool.specs.Totals.{totals_of};

use crate::budget::Quota;
use crate::entries::LastMarks;
use crate::refusals::{NoneOver, Unparked};
use hx_base::{ConnId, Faced, Millis, OutOfIds, PlaceNo, PoolRules, SessionNo, ThreadNo, Totals};

/// What a seat means, whatever its values are.
pub trait HasHistory: Drop {
    // What the seat has observed of its table's history, and its own entries.
    ghost history: { Self → History };

    // The marks of the last call that may make some.
    ghost last_marks: { Self → List Entry };

    // Where the seat keeps a whole journal: how many marks it had made before the journal began.
    ghost kept_from: { Self → Option ℕ };

    // For how many marks more its journal has room.
    ghost spare: { Self → ℕ };

    /// The marks of the last call that may make some.
    fn last(&self) -> LastMarks
        ensures { last_list result ≡ last_marks self.now };
}

/// One thread's seat. Every call appends what it did to the seat's own entries, which stand in one
/// history of the table, each once and in order, among those of the other threads.
pub trait Seat<V: Faced>: HasHistory {
    fn thread(&self) -> ThreadNo
        ensures thread { result ≡ (Self.history self.now).about.thread }
        ensures one { StandsInOneHistory (Self.history self.now) };

    fn rules(&self) -> PoolRules
        ensures rules { result ≡ (Self.history self.now).about.rules }
        ensures one { StandsInOneHistory (Self.history self.now) };

    /// How often each thing was done at this seat.
    fn totals(&self) -> Totals
        ensures totals { result ≡ totals_of (entries_of (Self.history self.now).mine) };

    /// Gives session `n` the number of a new connection. OutOfIds: the seat has opened as many as
    /// it may, 68,719,476,736, or one fewer for thread 15.
    fn open_new(&mut self, n: SessionNo) -> Result<ConnId, OutOfIds>
        requires { n.0 ≢ 0 }
        ensures answer { Opens (Self.history self.old) (Self.history self.new) n result }
        ensures grows { Grows (Self.history self.old) (Self.history self.new)
            (Self.last_marks self.new) }
        ensures kept { Stores (Self.kept_from self.old) (Self.kept_from self.new)
            (Self.spare self.old) (Self.spare self.new) (Self.last_marks self.new) };

    /// Lets the connection of session `n` rest at a place of the thread's row. A refused value is
    /// handed back, and the session still has the connection.
    fn park(&mut self, n: SessionNo, v: V) -> Result<PlaceNo, Unparked<V>>
        requires { CanPark (Self.history self.old) n (V.shows v) }
        ensures answer { MatchResult result
            (λ place. Parks (Self.history self.old) (Self.history self.new) n place (V.shows v))
            (λ u. RefusesPark (Self.history self.old) (Self.history self.new) n (V.shows v)
            u.why) }
        ensures back { IfErr result (λ u. V.shows u.v ≡ V.shows v) }
        ensures still { IfErr result (λ u. HasConn (Self.history self.new) n (V.shows v).face.id) }
        ensures grows { Grows (Self.history self.old) (Self.history self.new)
            (Self.last_marks self.new) }
        ensures kept { Stores (Self.kept_from self.old) (Self.kept_from self.new)
            (Self.spare self.old) (Self.spare self.new) (Self.last_marks self.new) };

    /// Takes a connection from the thread's row that session `n` may use. `first`: for its first
    /// request.
    fn take_own(&mut self, n: SessionNo, first: bool) -> Option<V>
        requires { n.0 ≢ 0 }
        ensures answer { MatchOption result
            (TakesNoneOwn (Self.history self.old) (Self.history self.new) first)
            (λ v. TakesOwn (Self.history self.old) (Self.history self.new) n first (V.shows v)) }
        ensures grows { Grows (Self.history self.old) (Self.history self.new)
            (Self.last_marks self.new) }
        ensures kept { Stores (Self.kept_from self.old) (Self.kept_from self.new)
            (Self.spare self.old) (Self.spare self.new) (Self.last_marks self.new) };

    /// Takes a connection from another thread's row that session `n` may use.
    fn take_over(&mut self, n: SessionNo, first: bool) -> Result<V, NoneOver>
        requires { n.0 ≢ 0 }
        ensures answer { MatchResult result
            (λ v. TakesOver (Self.history self.old) (Self.history self.new) n first (V.shows v))
            (λ why. RefusesTakeover (Self.history self.old) (Self.history self.new) first why) }
        ensures grows { Grows (Self.history self.old) (Self.history self.new)
            (Self.last_marks self.new) }
        ensures kept { Stores (Self.kept_from self.old) (Self.kept_from self.new)
            (Self.spare self.old) (Self.spare self.new) (Self.last_marks self.new) };

    /// Notes that session `n` closes its connection.
    fn close(&mut self, n: SessionNo, id: ConnId)
        requires { HasConn (Self.history self.old) n id }
        ensures answer { Closes (Self.history self.old) (Self.history self.new) n id }
        ensures grows { Grows (Self.history self.old) (Self.history self.new)
            (Self.last_marks self.new) }
        ensures kept { Stores (Self.kept_from self.old) (Self.kept_from self.new)
            (Self.spare self.old) (Self.spare self.new) (Self.last_marks self.new) };

    /// Whether the server takes new requests, and does not drain.
    fn ready(&mut self) -> bool
        ensures answer { ReadsGate (Self.history self.old) (Self.history self.new) result }
        ensures grows { Grows (Self.history self.old) (Self.history self.new)
            (Self.last_marks self.new) }
        ensures kept { Stores (Self.kept_from self.old) (Self.kept_from self.new)
            (Self.spare self.old) (Self.spare self.new) (Self.last_marks self.new) };

    /// Raises the purge interval to that of `now`. A quota, where it was below.
    fn due(&mut self, now: Millis) -> Option<Quota>
        ensures answer { MatchOption result
            (GivesNoQuota (Self.history self.old) (Self.history self.new) now)
            (λ q. GivesQuota (Self.history self.old) (Self.history self.new) now q) }
        ensures grows { Grows (Self.history self.old) (Self.history self.new)
            (Self.last_marks self.new) }
        ensures kept { Stores (Self.kept_from self.old) (Self.kept_from self.new)
            (Self.spare self.old) (Self.spare self.new) (Self.last_marks self.new) };

    /// Takes one of the connections that the quota says. None: as many were taken, or every place
    /// was passed.
    fn purge_next(&mut self, quota: &mut Quota) -> Option<V>
        requires { StandsAt (Self.history self.old).about quota.old }
        ensures answer { MatchOption result
            (PurgesNone (Self.history self.old) (Self.history self.new) quota.old quota.new)
            (λ v. PurgesOne (Self.history self.old) (Self.history self.new) quota.old quota.new
            (V.shows v)) }
        ensures quota { KeepsQuota (Self.history self.old) (Self.history self.new)
            quota.old quota.new }
        ensures grows { Grows (Self.history self.old) (Self.history self.new)
            (Self.last_marks self.new) }
        ensures kept { Stores (Self.kept_from self.old) (Self.kept_from self.new)
            (Self.spare self.old) (Self.spare self.new) (Self.last_marks self.new) };

    /// Sets the server draining.
    fn set_drain(&mut self)
        ensures answer { SetsDrain (Self.history self.old) (Self.history self.new) }
        ensures grows { Grows (Self.history self.old) (Self.history self.new)
            (Self.last_marks self.new) }
        ensures kept { Stores (Self.kept_from self.old) (Self.kept_from self.new)
            (Self.spare self.old) (Self.spare self.new) (Self.last_marks self.new) };

    /// Takes one of the connections that rest at the server which this seat set draining. None:
    /// every place was passed, or the seat did not set it draining.
    fn drain_next(&mut self) -> Option<V>
        ensures answer { MatchOption result
            (DrainsNone (Self.history self.old) (Self.history self.new))
            (λ v. DrainsOne (Self.history self.old) (Self.history self.new) (V.shows v)) }
        ensures grows { Grows (Self.history self.old) (Self.history self.new)
            (Self.last_marks self.new) }
        ensures kept { Stores (Self.kept_from self.old) (Self.kept_from self.new)
            (Self.spare self.old) (Self.spare self.new) (Self.last_marks self.new) };

    /// Sets the server ready.
    fn set_ready(&mut self)
        ensures answer { SetsReady (Self.history self.old) (Self.history self.new) }
        ensures grows { Grows (Self.history self.old) (Self.history self.new)
            (Self.last_marks self.new) }
        ensures kept { Stores (Self.kept_from self.old) (Self.kept_from self.new)
            (Self.spare self.old) (Self.spare self.new) (Self.last_marks self.new) };

    /// Lets another seat of the same board observe all that this one has observed.
    fn tell(&mut self, other: &mut Self)
        requires { AreOfOneBoard (Self.history self.old) (Self.history other.old) }
        ensures own { Calls (Self.history self.old) (Self.history self.new) [] }
        ensures other { Tells (Self.history self.old)
            (Self.history other.old) (Self.history other.new) }
        ensures kept { Self.kept_from self.new ≡ Self.kept_from self.old }
        ensures kept_other { Self.kept_from other.new ≡ Self.kept_from other.old }
        ensures spare { Self.spare self.new ≡ Self.spare self.old }
        ensures spare_other { Self.spare other.new ≡ Self.spare other.old };
}
