//! Taking what rests at one seat, closing each and burying its link.
ghost use Rattle.std.specs.Prelude.{◌≡◌, true, false};
ghost use Rattle.hx_connecting.specs.Journals.{room_of};
ghost use Rattle.hx_pool.specs.Causes.{caretaker};
ghost use Rattle.hx_pool.specs.Opening.{HasConn};
ghost use Rattle.hx_pool.specs.Purge.{StandsAt};
ghost use Rattle.hx_pool.specs.SeatView.{StandsInOneHistory};
ghost use Rattle.hx_caretaker.specs.Sites.{site, ClosesTaken, IsDraining, PurgeGoesOn, PurgeEnds, PurgesAll};
ghost use Rattle.hx_caretaker.specs.Sites.{DrainGoesOn, DrainEnds, DrainsAll};

use hx_base::{Faced, SessionNo};
use hx_conn::Rested;
use hx_link::{Link, Net};
use hx_pool::{Quota, Seat};

/// The session of the purge task.
const CARETAKER: SessionNo = SessionNo(0);

/// Closes a connection that the caretaker took, and buries its link.
fn close_taken<L: Link, S: Seat<Rested<L>>, N: Net<L = L>>(
    seat: &mut S,
    net: &mut N,
    taken: Rested<L>,
)
    requires has { HasConn (S.history seat.old) caretaker taken.id }
    ensures { ClosesTaken (site S.history (room_of S.kept_from S.spare) N.state seat.old net.old)
        (site S.history (room_of S.kept_from S.spare) N.state seat.new net.new) taken }
{
    seat.close(CARETAKER, taken.face().id);
    net.bury(taken.end());
}

/// Closes one connection of those that the quota says. It answers whether there was one.
fn purge_one<L: Link, S: Seat<Rested<L>>, N: Net<L = L>>(
    seat: &mut S,
    net: &mut N,
    quota: &mut Quota,
) -> bool
    requires { StandsAt (S.history seat.old).about quota.old }
    ensures took { result ≡ true → PurgeGoesOn (site S.history (room_of S.kept_from S.spare) N.state seat.old net.old)
        (site S.history (room_of S.kept_from S.spare) N.state seat.new net.new) quota.old quota.new }
    ensures none { result ≡ false → PurgeEnds (site S.history (room_of S.kept_from S.spare) N.state seat.old net.old)
        (site S.history (room_of S.kept_from S.spare) N.state seat.new net.new) quota.old }
{
    match seat.purge_next(quota) {
        Some(taken) => {
            close_taken(seat, net, taken);
            true
        }
        None => false,
    }
}

/// Closes as many as the quota says, or all that can be had. It answers how many that were.
pub(crate) fn purge_all<L: Link, S: Seat<Rested<L>>, N: Net<L = L>>(
    seat: &mut S,
    net: &mut N,
    quota: Quota,
) -> u64
    requires one { StandsInOneHistory (S.history seat.old) }
    requires stands { StandsAt (S.history seat.old).about quota }
    ensures { PurgesAll (site S.history (room_of S.kept_from S.spare) N.state seat.old net.old)
        (site S.history (room_of S.kept_from S.spare) N.state seat.new net.new) quota result }
{
    let mut left = quota;
    let mut count = 0;
    while purge_one(seat, net, &mut left) {
        count += 1;
    }
    count
}

/// Closes one connection of those that rest at a server that this seat set draining. It answers whether there was one.
fn drain_one<L: Link, S: Seat<Rested<L>>, N: Net<L = L>>(seat: &mut S, net: &mut N) -> bool
    requires { IsDraining (S.history seat.old) }
    ensures took { result ≡ true → DrainGoesOn (site S.history (room_of S.kept_from S.spare) N.state seat.old net.old)
        (site S.history (room_of S.kept_from S.spare) N.state seat.new net.new) }
    ensures none { result ≡ false → DrainEnds (site S.history (room_of S.kept_from S.spare) N.state seat.old net.old)
        (site S.history (room_of S.kept_from S.spare) N.state seat.new net.new) }
{
    match seat.drain_next() {
        Some(taken) => {
            close_taken(seat, net, taken);
            true
        }
        None => false,
    }
}

/// Closes all that rests at a server that this seat set draining. It answers how many that were.
pub(crate) fn drain_all<L: Link, S: Seat<Rested<L>>, N: Net<L = L>>(
    seat: &mut S,
    net: &mut N,
) -> u64
    requires { IsDraining (S.history seat.old) }
    ensures { DrainsAll (site S.history (room_of S.kept_from S.spare) N.state seat.old net.old)
        (site S.history (room_of S.kept_from S.spare) N.state seat.new net.new) result }
{
    let mut count = 0;
    while drain_one(seat, net) {
        count += 1;
    }
    count
}
