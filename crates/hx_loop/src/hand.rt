//! A worker at work: its lane, its net, and turns in which the sessions with news are stepped.
ghost use Rattle.std.specs.Prelude.{◌≡◌, ◌<◌, [], true, false, IsSome, length};
ghost use Rattle.hx_config.specs.Limits.{all_servers};
ghost use Rattle.hx_config.specs.Views.{meaning};
ghost use Rattle.hx_caretaker.specs.Orders.{ordered_server};
ghost use Rattle.hx_session.specs.declared.step.Waits.TheVariants.{Ended};
ghost use Rattle.hx_worker.specs.Workers.{session_of, HasSeats};

use crate::guest::{Carried, Guest};
use hx_base::{Millis, NoMemory, Order, ServerNo, SessionNo, Totals};
use hx_config::Config;
use hx_conn::Rested;
use hx_handoff::{Errand, Taker};
use hx_link::{Clock, Link, Net};
use hx_pool::Seat;
use hx_resting::NO_TOTALS;
use hx_session::{Step, Waits};
use hx_stats::Tally;
use hx_worker::{NoEntry, Worker};
use std::alloc::Global;
use std::collections::VecDeque;
use std::marker::Model;
use std::sync::Wait;

/// The most steps of a session in a turn. One that is cut off there is kept, since its links get no new report.
const MOST_STEPS: u32 = 64;

/// How often all sessions are stepped, in milliseconds.
const BETWEEN_ROUNDS: u64 = 100;

/// The most errands of a turn, as many as a lane holds.
const MOST_ERRANDS: u32 = 1_024;

/// The most news of a turn.
const MOST_NEWS: u32 = 4_096;

/// The most rounds after a stop.
const MOST_ROUNDS: u32 = 1_000;

/// The most servers of a configuration.
const MOST_SERVERS: u16 = 32;

/// As many sessions as a worker has.
const MOST_SESSIONS: usize = 1_024;

/// Whether the step ended its session.
fn is_over(step: Step) -> bool
    ensures { result ≡ false → step.waits ≡ Ended → ⊥ }
{
    match step.waits {
        Waits::Ended => true,
        Waits::Nothing | Waits::Client | Waits::Server => false,
    }
}

fn server_of(what: Order) -> ServerNo
    ensures { result ≡ ordered_server what }
{
    match what {
        Order::Drain(server) | Order::Ready(server) => server,
    }
}

/// Whether there is a server of that number.
fn is_server(config: &Config, at: u16) -> bool
    ensures there { result ≡ true → at < length (all_servers config.now.backs) }
{
    match config.server(ServerNo(at)) {
        Some(_server) => true,
        None => false,
    }
}

/// The totals of a worker's seat, or none where there is no such server.
fn totals_at<S: Seat<Rested<L>>, L: Link>(
    worker: &mut Worker<'_, S, L>,
    config: &Config,
    at: u16,
) -> Totals
    requires seats { length worker.old.seats ≡ length (all_servers config.now.backs) }
    ensures seats { length worker.new.seats ≡ length worker.old.seats }
{
    if is_server(config, at) {
        worker.seat_mut(ServerNo(at)).totals()
    } else {
        NO_TOTALS
    }
}

/// A worker, its net and its lane.
#[derive(Drop)]
pub struct Hand<'a, S: Seat<Rested<N::L>>, N: Net> {
    worker: Worker<'a, S, N::L>,
    config: &'a Config,
    net: &'a mut N,
    lane: Taker<'a, Carried<N::L>>,
    /// The sessions that were cut off by the bound on steps.
    again: VecDeque<SessionNo>,
    /// The greatest number that was given to a session.
    last: SessionNo,
    /// When all sessions are stepped next.
    due: Millis,
    /// An admission found no memory.
    pub starved: bool,
}

impl<'a, S: Seat<Rested<N::L>>, N: Net> Model for Hand<'a, S, N> {
    ghost use Rattle.hx_config.specs.Views.{meaning};
    ghost use Rattle.hx_loop.specs.Hands.{HandNow, hand_now, IsHand};

    ghost Value = { HandNow };

    ghost view = { λ h. hand_now h.worker (N.state h.net.now) (meaning h.config.now) };

    ghost invariant = { λ h. IsHand (hand_now h.worker (N.state h.net.now) (meaning h.config.now)) };
}

impl<'a, S: Seat<Rested<N::L>>, N: Net> Hand<'a, S, N> {
    /// A worker that has no session.
    ///
    /// # Errors
    /// `NoMemory`.
    pub fn new(
        alloc: Global,
        worker: Worker<'a, S, N::L>,
        config: &'a Config,
        net: &'a mut N,
        lane: Taker<'a, Carried<N::L>>,
    ) -> Result<Hand<'a, S, N>, NoMemory>
        requires its_loop { (N.state net.old).loop_no ≡ worker.thread.0 }
        requires seats { HasSeats worker }
        requires config { worker.config ≡ meaning config.now }
    {
        let again = VecDeque::with_capacity(alloc, MOST_SESSIONS)?;
        Ok(Hand {
            worker,
            config,
            net,
            lane,
            again,
            last: SessionNo(0),
            due: Millis(0),
            starved: false,
        })
    }

    /// Whether the session of that number is there.
    #[tactic(auto, using(crate::proofs::Going::there_by))]
    fn is_there(&self, n: SessionNo) -> bool
        ensures there { result ≡ true → IsSome (session_of self.now.worker.sessions n.0) }
    {
        if n.0 == 0 {
            return false;
        }
        match self.worker.next_session(SessionNo(n.0 - 1)) {
            Some(next) => next.0 == n.0,
            None => false,
        }
    }

    /// A step of a session, whose links are reported under its number.
    fn step(&mut self, n: SessionNo, now: Millis) -> Step
        requires there { IsSome (session_of self.old.worker.sessions n.0) }
        ensures stays { (result.waits ≡ Ended → ⊥) → IsSome (session_of self.new.worker.sessions n.0) }
    {
        self.net.attach_for(n);
        self.worker.step(self.net, n, now)
    }

    /// Keeps a session for the next turn. Where no memory is found it waits for the next round.
    fn keep(&mut self, n: SessionNo) {
        let _ = self.again.push_back(n);
    }

    /// A session makes its steps until one doesn't move, or it is cut off.
    fn go_on(&mut self, n: SessionNo, now: Millis)
        requires there { IsSome (session_of self.old.worker.sessions n.0) }
    {
        for _ in 0..MOST_STEPS {
            let step = self.step(n, now);
            if is_over(step) || !step.moved {
                return;
            }
        }
        self.keep(n);
    }

    /// A session goes on, if it is there.
    fn visit(&mut self, n: SessionNo, now: Millis) {
        if self.is_there(n) {
            self.go_on(n, now);
        }
    }

    /// Those that were cut off before go on.
    fn visit_kept(&mut self, now: Millis) {
        for _ in 0..self.again.len() {
            if let Some(n) = self.again.pop_front() {
                self.visit(n, now);
            }
        }
    }

    /// Those with news go on, in the order of the news.
    fn visit_news(&mut self, now: Millis) {
        for _ in 0..MOST_NEWS {
            let Some(n) = self.net.next_news() else {
                return;
            };
            self.visit(n, now);
        }
    }

    /// All go on, by rising number.
    #[tactic(auto, using(crate::proofs::Going::next_there, crate::proofs::Going::next_over))]
    fn visit_all(&mut self, now: Millis) {
        let mut after = SessionNo(0);
        while let Some(n) = self.worker.next_session(after) {
            self.go_on(n, now);
            after = n;
        }
    }

    /// The first step of a session, with the moment of its admission.
    fn begin(&mut self, n: SessionNo, now: Millis) {
        self.last = n;
        if self.is_there(n) {
            let step = self.step(n, now);
            if step.moved && !is_over(step) {
                self.keep(n);
            }
        }
    }

    /// Admits a client and steps it once. One whose front isn't there, that can't be attached or is refused is buried.
    fn admit(&mut self, front: u16, guest: Guest<N::L>, now: Millis) {
        let mut link = guest.into_link();
        self.net
            .attach_for(SessionNo(self.last.0.saturating_add(1)));
        if front as usize >= self.config.fronts.as_slice().len()
            || self.net.attach(&mut link).is_err()
        {
            self.net.bury(link);
            return;
        }
        match self.worker.admit(link, front, now) {
            Ok(n) => self.begin(n, now),
            Err(refused) => {
                if refused.why == NoEntry::NoMemory {
                    self.starved = true;
                }
                self.net.bury(refused.client);
            }
        }
    }

    /// Carries out an order on a server of the configuration.
    fn run(&mut self, what: Order) {
        match self.config.server(server_of(what)) {
            Some(_server) => {
                self.worker.order(self.net, what);
            }
            None => {}
        }
    }

    /// Does what the lane holds, up to a stop, and says whether that came.
    fn empty_lane<R: Wait>(&mut self, rt: &R, now: Millis) -> bool {
        for _ in 0..MOST_ERRANDS {
            match self.lane.collect(rt) {
                Some(Errand::Client(front, guest)) => self.admit(front, guest, now),
                Some(Errand::Run(what)) => self.run(what),
                Some(Errand::Stop) => return true,
                None => return false,
            }
        }
        false
    }

    /// How long it may pause.
    fn limit(&self, now: Millis) -> Millis {
        if self.again.is_empty() {
            Millis(self.due.0.saturating_sub(now.0))
        } else {
            Millis(0)
        }
    }

    /// The lane, a pause, those that were cut off, those with news, and ten times a second all and the caretaker. It says
    /// whether a stop came.
    fn turn<R: Wait, C: Clock>(&mut self, rt: &R, clock: &C) -> bool {
        let now = clock.now();
        if self.empty_lane(rt, now) {
            return true;
        }
        let limit = self.limit(now);
        self.net.pause(limit);
        let now = clock.now();
        self.visit_kept(now);
        self.visit_news(now);
        if now.0 >= self.due.0 {
            self.due = Millis(now.0.saturating_add(BETWEEN_ROUNDS));
            self.visit_all(now);
            self.worker.tick(self.net, now);
        }
        false
    }

    /// Each session makes a step, by rising number. It says whether one moved.
    #[tactic(auto, using(crate::proofs::Going::next_there, crate::proofs::Going::next_over))]
    fn round(&mut self, now: Millis) -> bool {
        let mut moved = false;
        let mut after = SessionNo(0);
        while let Some(n) = self.worker.next_session(after) {
            let step = self.step(n, now);
            moved = moved || step.moved;
            after = n;
        }
        moved
    }

    /// Stops the session of the least number. It says whether there was one.
    fn stop_one(&mut self) -> bool
        ensures fewer { result ≡ true → length self.new.worker.sessions < length self.old.worker.sessions }
    {
        self.worker.stop_next(self.net).is_some()
    }

    fn stop_all(&mut self) {
        while self.stop_one() {}
    }

    /// Admits what the lane still holds, lets the sessions go on for some rounds, and stops those that are left.
    fn finish<R: Wait, C: Clock>(&mut self, rt: &R, clock: &C) {
        self.empty_lane(rt, clock.now());
        for _ in 0..MOST_ROUNDS {
            self.net.pause(Millis(0));
            if !self.round(clock.now()) {
                break;
            }
        }
        self.stop_all();
    }

    /// Serves until a stop comes.
    pub fn serve<R: Wait, C: Clock>(&mut self, rt: &R, clock: &C) {
        for _ in rt.forever() {
            if self.turn(rt, clock) {
                break;
            }
        }
        self.finish(rt, clock);
    }

    /// Drains each server in order.
    pub fn drain_all(&mut self) {
        for at in 0..MOST_SERVERS {
            self.run(Order::Drain(ServerNo(at)));
        }
    }

    /// Adds the totals of its seats, by server.
    pub fn add_totals(self, sums: &mut [Totals]) {
        let Hand { worker, config, .. } = self;
        let mut worker = worker;
        for at in 0..MOST_SERVERS {
            let totals = totals_at(&mut worker, config, at);
            if let Some(sum) = sums.get_mut(at as usize) {
                sum.add(&totals);
            }
        }
    }
}
