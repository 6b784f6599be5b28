//! The worker of one thread.
ghost use Rattle.std.specs.Prelude.{◌≡◌, ◌<◌, IsSome, IfOk, MatchResult, Some, length, map, slice_get};
ghost use Rattle.std.specs.Borrow.{sem};
ghost use Rattle.hx_config.specs.Limits.{all_servers};
ghost use Rattle.hx_config.specs.Views.{meaning};
ghost use Rattle.hx_caretaker.specs.Orders.{ordered_server};
ghost use Rattle.hx_connecting.specs.Journals.{room_of};
ghost use Rattle.hx_worker.specs.Workers.{HasSeats, HasSessions, new_worker, session_of};
ghost use Rattle.hx_worker.specs.Admitting.{IsAdmissible, Admits, RefusesFor, next_above};
ghost use Rattle.hx_worker.specs.Steps.{Steps, StepsAt};
ghost use Rattle.hx_numbered.specs.Numbers.{AreAbove};
ghost use Rattle.hx_worker.specs.Stops.{StopsNext, TakesLeast};
ghost use Rattle.hx_worker.specs.Cares.{TicksAll, CarriesOut};

use crate::answers::{NoEntry, Refused, Stopped};
use hx_base::{Millis, NoMemory, Order, ServerNo, SessionNo, ThreadNo};
use hx_caretaker::{order_seats, tick_seats};
use hx_config::Config;
use hx_conn::Rested;
use hx_link::{Link, Net};
use hx_numbered::Numbered;
use hx_pool::Seat;
use hx_session::{Session, Step, Stop, Unadmitted, Waits};
use std::alloc::Global;
use std::marker::Model;

/// The most sessions that a worker has at a time.
const MOST_SESSIONS: usize = 1_024;

/// Takes out the session of the least number, if there is one.
fn take_least<L: Link>(sessions: &mut Numbered<Session<L>>) -> Option<Session<L>>
    requires above { AreAbove 0 sessions.old.items }
    ensures { TakesLeast sessions.old.items sessions.new.items result }
{
    match sessions.number_above(0) {
        Some(n) => sessions.remove(n),
        None => None,
    }
}

/// The sessions of one thread, and its seats, one for each server of the configuration.
#[derive(Drop)]
pub struct Worker<'a, S: Seat<Rested<L>>, L: Link> {
    alloc: Global,
    thread: ThreadNo,
    config: &'a Config,
    // By server.
    seats: Vec<S>,
    // By backend: at which of its servers the next choice begins.
    turns: Vec<u16>,
    // The greatest number that was given.
    last: u32,
    sessions: Numbered<Session<L>>,
}

impl<'a, S: Seat<Rested<L>>, L: Link> Model for Worker<'a, S, L> {
    ghost use Rattle.std.specs.Prelude.{map};
    ghost use Rattle.hx_config.specs.Views.{meaning};
    ghost use Rattle.hx_connecting.specs.Journals.{room_of};
    ghost use Rattle.hx_worker.specs.Workers.{WorkerNow, worker_now};
    ghost use Rattle.hx_worker.specs.Listed.{sessions_of, IsSound};

    ghost Value = { WorkerNow };

    ghost view = { λ w. worker_now w.thread (meaning w.config.now) (map S.history w.seats.items)
        (map (room_of S.kept_from S.spare) w.seats.items) w.turns.items w.last (sessions_of w.sessions.items) };

    ghost invariant = { λ w. IsSound (worker_now w.thread (meaning w.config.now) (map S.history w.seats.items)
        (map (room_of S.kept_from S.spare) w.seats.items) w.turns.items w.last (sessions_of w.sessions.items))
        w.sessions.items };
}

impl<'a, S: Seat<Rested<L>>, L: Link> Worker<'a, S, L> {
    ghost use Rattle.hx_worker.specs.Lends.{lends_seat};

    /// A worker without sessions. It has one seat for each server of the configuration, in order.
    ///
    /// # Errors
    /// `NoMemory`.
    pub fn new(
        alloc: Global,
        thread: ThreadNo,
        config: &'a Config,
        seats: Vec<S>,
    ) -> Result<Worker<'a, S, L>, NoMemory>
        requires seats { HasSeats (new_worker thread (meaning config.now) (map S.history seats.items)
            (map (room_of S.kept_from S.spare) seats.items)) }
        ensures begins { IfOk result (λ w. w ≡ new_worker thread (meaning config.now) (map S.history seats.items)
            (map (room_of S.kept_from S.spare) seats.items)) }
    {
        let turns = vec![in alloc; 0; config.backs.as_slice().len()]?;
        Ok(Worker {
            alloc,
            thread,
            config,
            seats,
            turns,
            last: 0,
            sessions: Numbered::new(alloc),
        })
    }

    /// Begins the session of a client whose link is attached to the worker's loop.
    ///
    /// # Errors
    /// A `Refused` hands back the client: 1,024 sessions are there, all numbers were given, or for want of memory.
    /// Nothing changes then.
    pub fn admit(&mut self, client: L, front: u16, now: Millis) -> Result<SessionNo, Refused<L>>
        requires fresh { IsAdmissible self.old (L.state client) front }
        ensures admits { MatchResult result (λ n. Admits self.old self.new (L.state client) front now n)
            (λ r. RefusesFor self.old r.why × (self.new ≡ self.old) × (L.state r.client ≡ L.state client)) }
        ensures seats { HasSeats self.old → HasSeats self.new }
    {
        if self.sessions.len() >= MOST_SESSIONS {
            return Err(Refused {
                client,
                why: NoEntry::SessionsFull,
            });
        }
        if self.last == u32::MAX {
            return Err(Refused {
                client,
                why: NoEntry::NumbersSpent,
            });
        }
        if self.sessions.reserve(1).is_err() {
            return Err(Refused {
                client,
                why: NoEntry::NoMemory,
            });
        }
        let n = SessionNo(self.last + 1);
        match Session::admit(self.alloc, client, self.thread, n, front, now) {
            Ok(session) => {
                self.last = n.0;
                self.sessions.insert_reserved(n.0, session);
                Ok(n)
            }
            Err(Unadmitted { client }) => Err(Refused {
                client,
                why: NoEntry::NoMemory,
            }),
        }
    }

    /// The session of the least number above this one, if there is one.
    pub fn next_session(&self, after: SessionNo) -> Option<SessionNo>
        ensures next { result ≡ next_above self.now.sessions after.0 }
        ensures sound { HasSessions self.now }
    {
        match self.sessions.number_above(after.0) {
            Some(n) => Some(SessionNo(n)),
            None => None,
        }
    }

    /// The session of that number does one thing, or says what it waits for. One that has ended is gone, and its
    /// client's link is buried.
    pub fn step<N: Net<L = L>>(&mut self, net: &mut N, n: SessionNo, now: Millis) -> Step
        requires there { IsSome (session_of self.old.sessions n.0) }
        requires seats { HasSeats self.old }
        requires net { (N.state net.old).loop_no ≡ self.old.thread.0 }
        ensures steps { Steps self.old self.new (N.state net.old) (N.state net.new) n result }
        ensures timely { StepsAt self.old self.new (N.state net.old) (N.state net.new) n now.0 result }
        ensures seats { HasSeats self.new }
    {
        let Some(session) = self.sessions.get_mut(n.0) else {
            unreachable!()
        };
        let step = session.step(
            self.config,
            self.seats.as_mut_slice(),
            self.turns.as_mut_slice(),
            net,
            now,
        );
        match step.waits {
            Waits::Ended => {
                let Some(session) = self.sessions.remove(n.0) else {
                    unreachable!()
                };
                net.bury(session.end());
            }
            Waits::Nothing | Waits::Client | Waits::Server => {}
        }
        step
    }

    /// The caretaker's round at a moment, on each server in order: what rested too long is closed, and its links are
    /// buried. It answers how many that were.
    pub fn tick<N: Net<L = L>>(&mut self, net: &mut N, now: Millis) -> u64
        requires seats { HasSeats self.old }
        requires net { (N.state net.old).loop_no ≡ self.old.thread.0 }
        ensures ticks { TicksAll self.old self.new (N.state net.old) (N.state net.new) now result }
        ensures seats { HasSeats self.new }
    {
        tick_seats(self.seats.as_mut_slice(), net, now)
    }

    /// Carries out an order on its server. Drain closes what rests there and buries the links, and answers how many
    /// that were. Ready answers 0.
    pub fn order<N: Net<L = L>>(&mut self, net: &mut N, what: Order) -> u64
        requires there { (ordered_server what).0 < length (all_servers self.old.config.backs) }
        requires seats { HasSeats self.old }
        requires net { (N.state net.old).loop_no ≡ self.old.thread.0 }
        ensures orders { CarriesOut self.old self.new (N.state net.old) (N.state net.new) what result }
        ensures seats { HasSeats self.new }
    {
        order_seats(self.seats.as_mut_slice(), net, what)
    }

    /// Stops the session of the least number and buries its client's link. None: no session is there.
    pub fn stop_next<N: Net<L = L>>(&mut self, net: &mut N) -> Option<Stopped>
        requires seats { HasSeats self.old }
        requires net { (N.state net.old).loop_no ≡ self.old.thread.0 }
        ensures stops { StopsNext self.old self.new (N.state net.old) (N.state net.new) result }
        ensures seats { HasSeats self.new }
    {
        match take_least(&mut self.sessions) {
            Some(session) => {
                let Stop {
                    served,
                    left,
                    client,
                } = session.stop(self.seats.as_mut_slice(), net);
                net.bury(client);
                Some(Stopped { served, left })
            }
            None => None,
        }
    }

    /// The seat of a server, for what a caller does at it between calls. The next call of the worker asks anew that the
    /// seats hold what its sessions have.
    pub fn seat_mut(&mut self, server: ServerNo) -> &mut S
        requires there { server.0 < length self.old.seats }
        ensures* writes_back { sem 𝓛 (lends_seat S.row L.row S.HasHistory L.Link self.entry server.0 result) }
        ensures value { slice_get self.old.seats server.0 ≡ Some (S.history result.now) }
        ensures room { slice_get self.old.journals server.0 ≡ Some (room_of S.kept_from S.spare result.now) }
    {
        &mut self.seats[server.0 as usize]
    }

    /// How many servers it has seats of.
    pub fn servers(&self) -> usize
        ensures seats { result ≡ length self.now.seats }
        ensures journals { result ≡ length self.now.journals }
    {
        self.seats.len()
    }

    /// The seats, by server. Sessions that are left are let go with all that they have.
    pub fn into_seats(self) -> Vec<S>
        ensures seats { map S.history result.items ≡ self.entry.seats }
        ensures journals { map (room_of S.kept_from S.spare) result.items ≡ self.entry.journals }
    {
        let Worker { seats, .. } = self;
        seats
    }
}
