//! A session but for where it stands: who it is, its client's link, its pipes and its counts.

use hx_base::{Millis, SessionNo, Span, ThreadNo};
use hx_link::{Link, Pipe};
use hx_record::{Kind, Left, LeftCause, Served};

/// What a session has at each of its stages.
#[derive(Drop)]
pub(crate) struct Desk<L: Link> {
    pub worker: ThreadNo,
    pub session: SessionNo,
    /// The number of the request that is read or carried, from 1.
    pub number: u64,
    pub client: L,
    /// What was taken of the client and didn't go on yet.
    pub from: Pipe,
    /// What wasn't given to the client yet.
    pub to: Pipe,
    /// What wasn't sent to the server yet.
    pub up: Pipe,
    /// What was taken of the server and didn't go on yet.
    pub down: Pipe,
    /// How many bytes were taken of the client and given to it.
    pub taken: u64,
    pub given: u64,
    /// Where the ranges of the next record begin.
    pub ask_from: u64,
    pub gave_from: u64,
    /// The client's link told its end.
    pub ended: bool,
    /// When it was admitted.
    pub since: Millis,
    /// When the last byte moved on the client's link, or the admission.
    pub moved: Millis,
    /// Since when bytes wait to be given.
    pub waits_since: Millis,
}

impl<L: Link> Desk<L> {
    ghost use Rattle.std.specs.Prelude.{◌≡◌, ◌==◌, ◌↔◌, ◌<◌, ◌≤◌, ◌+◌, IsTrue};
    ghost use Rattle.hx_link.specs.Told.{most_bytes};
    ghost use Rattle.hx_session.specs.Desks.{desk_now, emptied};
    ghost use Rattle.hx_session.specs.Over.{served_of, after_record, left_of};

    /// It is the first request of the session.
    pub fn is_first(&self) -> bool
        ensures { result ≡ (self.now.number == 1) }
    {
        self.number == 1
    }

    /// Something was given for this request.
    pub fn has_given(&self) -> bool
        ensures { IsTrue result ↔ (self.now.gave_from < self.now.given) }
    {
        self.gave_from < self.given
    }

    /// Since when bytes wait to be given, where some are put into the pipe now.
    pub fn wait_start(&self, now: Millis) -> Millis {
        if self.to.len() == 0 {
            now
        } else {
            self.waits_since
        }
    }

    /// Nothing that waits to be given or sent will be.
    pub fn drop_waiting(&mut self)
        ensures { desk_now L.state self.new ≡ emptied (desk_now L.state self.old) }
    {
        let waiting = self.to.len();
        self.to.drop_front(waiting);
        let unsent = self.up.len();
        self.up.drop_front(unsent);
        let unread = self.down.len();
        self.down.drop_front(unread);
    }

    /// The record of this request, whose bytes end there, and where the next one begins.
    pub fn record(&mut self, kind: Kind, ask_to: u64) -> Served
        requires few { self.old.number ≤ self.old.ask_from + 1 }
        requires within { self.old.ask_from ≤ most_bytes }
        ensures served { result ≡ served_of (desk_now L.state self.old) kind ask_to }
        ensures next { desk_now L.state self.new ≡ after_record (desk_now L.state self.old) ask_to }
    {
        let served = Served {
            worker: self.worker,
            session: self.session,
            number: self.number,
            ask: Span {
                from: self.ask_from,
                to: ask_to,
            },
            gave: Span {
                from: self.gave_from,
                to: self.given,
            },
            kind,
        };
        self.ask_from = ask_to;
        self.gave_from = self.given;
        self.number += 1;
        served
    }

    /// The end of the session.
    pub fn leave(&self, cause: LeftCause) -> Left
        ensures { result ≡ left_of (desk_now L.state self.now) cause }
    {
        Left {
            worker: self.worker,
            session: self.session,
            ask: Span {
                from: self.ask_from,
                to: self.taken,
            },
            cause,
        }
    }
}
