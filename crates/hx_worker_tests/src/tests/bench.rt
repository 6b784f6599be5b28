//! A worker over a net in memory, and what its calls ask and keep.
ghost use Rattle.std.specs.Prelude.{◌≡◌, ◌≤◌, true, All, IfErr, IfSome, map};
ghost use Rattle.hx_config.specs.Views.{meaning};
ghost use Rattle.hx_connecting.specs.Journals.{room_of};
ghost use Rattle.hx_link.specs.MemoryNets.{IsPlan};
ghost use Rattle.hx_plain.specs.PlainSeat.{first_thread};
ghost use Rattle.hx_worker.specs.Workers.{HasSeats, new_worker};
ghost use Rattle.hx_worker_tests.specs.Benches.{IsFresh};

use hx_base::{Millis, Order, ServerNo, SessionNo, ThreadNo};
use hx_config::Config;
use hx_conn::Rested;
use hx_link::{MemoryLink, MemoryNet, Net, Plan};
use hx_pool::Seat;
use hx_session::{Step, Waits};
use hx_worker::{Refused, Stopped, Worker};
use std::alloc::Global;
use std::marker::Model;

/// More steps than a session makes at one moment here.
const MOST_STEPS: u32 = 64;

/// Whether a limit, if there is one, is at least 1.
fn is_limit(limit: Option<u64>) -> bool
    ensures { result ≡ true → IfSome limit (λ n. 1 ≤ n) }
{
    match limit {
        Some(n) => n >= 1,
        None => true,
    }
}

/// Whether the limits of a plan are at least 1.
fn is_plan(plan: &Plan) -> bool
    ensures { result ≡ true → IsPlan plan.now }
{
    is_limit(plan.room) && is_limit(plan.fail)
}

fn are_plans(plans: &[Plan]) -> bool
    ensures { result ≡ true → All IsPlan plans.now }
{
    for plan in plans {
        if !is_plan(plan) {
            return false;
        }
    }
    true
}

/// Whether the step ended its session or found nothing to do.
fn rests(step: Step) -> bool {
    match step.waits {
        Waits::Ended => true,
        Waits::Nothing | Waits::Client | Waits::Server => !step.moved,
    }
}

#[derive(Drop)]
pub(crate) struct Bench<'a, S: Seat<Rested<MemoryLink>>> {
    worker: Worker<'a, S, MemoryLink>,
    net: MemoryNet,
    /// How many frontends there are.
    fronts: usize,
}

impl<'a, S: Seat<Rested<MemoryLink>>> Model for Bench<'a, S> {
    ghost use Rattle.hx_worker_tests.specs.Benches.{BenchNow, bench_now, IsBench};

    ghost Value = { BenchNow };

    ghost view = { λ b. bench_now b.worker b.net b.fronts };

    ghost invariant = { λ b. IsBench b.worker b.net b.fronts };
}

impl<'a, S: Seat<Rested<MemoryLink>>> Bench<'a, S> {
    /// A worker of the first thread with these seats, and a net with these plans. It fails for want
    /// of memory, or where a plan has a limit of 0.
    #[tactic(auto, using(crate::proofs::Benches::begins))]
    pub(crate) fn new(
        alloc: Global,
        config: &'a Config,
        seats: Vec<S>,
        plans: Vec<Plan>,
    ) -> Result<Bench<'a, S>, &'static str>
        requires seats { HasSeats (new_worker first_thread (meaning config.now) (map S.history seats.items)
            (map (room_of S.kept_from S.spare) seats.items)) }
    {
        if !are_plans(plans.as_slice()) {
            return Err("a plan has a limit of 0");
        }
        let Ok(net) = MemoryNet::new(alloc, plans, 0) else {
            return Err("no memory for the net");
        };
        match Worker::new(alloc, ThreadNo(0), config, seats) {
            Ok(worker) => Ok(Bench {
                worker,
                net,
                fronts: config.fronts.as_slice().len(),
            }),
            Err(_) => Err("no memory for the worker"),
        }
    }

    /// A client's link, attached to the worker's loop. None: the plan has a limit of 0.
    #[tactic(auto, using(crate::proofs::Benches::fresh_attached, crate::proofs::Benches::after_attach))]
    pub(crate) fn attach(&mut self, plan: Plan) -> Option<MemoryLink>
        ensures fresh { IfSome result (λ l. IsFresh l.state) }
    {
        if !is_plan(&plan) {
            return None;
        }
        let mut link = MemoryLink::new(plan);
        match self.net.attach(&mut link) {
            Ok(()) => Some(link),
            Err(_) => None,
        }
    }

    /// Admits a client. None: no such frontend is there.
    #[tactic(auto, using(crate::proofs::Benches::admissible, crate::proofs::Benches::after_admit, crate::proofs::Benches::after_refusal, crate::proofs::Benches::fresh_back))]
    pub(crate) fn admit(
        &mut self,
        client: MemoryLink,
        front: u16,
        now: Millis,
    ) -> Option<Result<SessionNo, Refused<MemoryLink>>>
        requires fresh { IsFresh client.state }
        ensures fresh { IfSome result (λ r. IfErr r (λ back. IsFresh back.client.state)) }
    {
        if front as usize >= self.fronts {
            return None;
        }
        match self.worker.admit(client, front, now) {
            Ok(n) => Some(Ok(n)),
            Err(refused) => Some(Err(refused)),
        }
    }

    /// A client comes: the number of its session.
    pub(crate) fn come(&mut self, plan: Plan, front: u16, now: Millis) -> Option<SessionNo> {
        let Some(link) = self.attach(plan) else {
            return None;
        };
        match self.admit(link, front, now) {
            Some(Ok(n)) => Some(n),
            Some(Err(_)) | None => None,
        }
    }

    /// The session of the least number above this one.
    pub(crate) fn next(&self, after: SessionNo) -> Option<SessionNo> {
        self.worker.next_session(after)
    }

    /// A step of the session with that number. None: it isn't there.
    #[tactic(auto, using(crate::proofs::Benches::next_there, crate::proofs::Benches::after_step))]
    pub(crate) fn step(&mut self, n: SessionNo, now: Millis) -> Option<Step> {
        let Some(there) = self.worker.next_session(SessionNo(n.0.saturating_sub(1))) else {
            return None;
        };
        if there != n {
            return None;
        }
        Some(self.worker.step(&mut self.net, there, now))
    }

    /// The session makes its steps until it has ended or finds nothing to do: whether it got so far.
    pub(crate) fn go_on(&mut self, n: SessionNo, now: Millis) -> bool {
        for _ in 0..MOST_STEPS {
            match self.step(n, now) {
                Some(step) if rests(step) => return true,
                Some(_) => {}
                None => return false,
            }
        }
        false
    }

    /// A client comes and is served until its session finds nothing to do or has ended: whether it got so far.
    pub(crate) fn serve(&mut self, plan: Plan, front: u16, now: Millis) -> bool {
        match self.come(plan, front, now) {
            Some(n) => self.go_on(n, now),
            None => false,
        }
    }

    /// The caretaker's round: how many connections it closed.
    #[tactic(auto, using(crate::proofs::Benches::after_care))]
    pub(crate) fn tick(&mut self, now: Millis) -> u64 {
        self.worker.tick(&mut self.net, now)
    }

    /// Carries out an order: how many connections were closed. None: no such server is there.
    #[tactic(auto, using(crate::proofs::Benches::seats_count, crate::proofs::Benches::after_care))]
    pub(crate) fn order(&mut self, what: Order) -> Option<u64> {
        let server = match what {
            Order::Drain(server) | Order::Ready(server) => server,
        };
        if server.0 as usize >= self.worker.servers() {
            return None;
        }
        Some(self.worker.order(&mut self.net, what))
    }

    pub(crate) fn drain(&mut self, server: u16) -> Option<u64> {
        self.order(Order::Drain(ServerNo(server)))
    }

    #[tactic(auto, using(crate::proofs::Benches::after_stop))]
    pub(crate) fn stop_next(&mut self) -> Option<Stopped> {
        self.worker.stop_next(&mut self.net)
    }

    /// The seats by server, and the links in the order of their burials.
    pub(crate) fn end(self) -> (Vec<S>, Vec<MemoryLink>) {
        let Bench { worker, net, .. } = self;
        (worker.into_seats(), net.into_buried())
    }
}
