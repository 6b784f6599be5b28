//! A replay under way.
ghost use Rattle.std.specs.Prelude.{◌≡◌, ◌+◌, ◌^◌, ◌<◌, ◌≤◌, ◌++◌, [], ◌∷◌, true, false, ℕ, All, IfOk, OnOk, IsSome, List, Ok, Err, length, map};
ghost use Rattle.hx_base.specs.declared.numbers.Millis.{Millis};
ghost use Rattle.hx_config.specs.Limits.{all_servers};
ghost use Rattle.hx_config.specs.Views.{meaning};
ghost use Rattle.hx_caretaker.specs.Orders.{ordered_server};
ghost use Rattle.hx_link.specs.MemoryNets.{IsPlan};
ghost use Rattle.hx_script_parts.specs.Limits.{is_client_of};
ghost use Rattle.hx_worker.specs.Workers.{Each, session_of};
ghost use Rattle.hx_session.specs.declared.step.Waits.TheVariants.{Ended};
ghost use Rattle.hx_connecting.specs.Journals.{room_of};
ghost use Rattle.hx_pool.specs.Journal.{Journal, journal_from};
ghost use Rattle.hx_run.specs.Overs.{HasRoom, ClosedBelow};
ghost use Rattle.hx_run.specs.Rooms.{RoomBelow};
ghost use Rattle.hx_run.specs.Runs.{GoesOn, IsRun, IsWorking, IsRoomier, CarriedOut, Ticked, StopsFirst};
ghost use Rattle.hx_base.specs.declared.order.Order.TheVariants.{Drain};
ghost use Rattle.hx_run.specs.Cares.{Ordered, drains_below};
ghost use Rattle.hx_run.specs.Courses.{CaresOn, ComesOn, HasCourse, KeepsAt, KeepsOn, StepsOn, StopsOn, TicksOn};
ghost use Rattle.hx_course.specs.Lines.{lines_of};
ghost use Rattle.hx_run.specs.Standings.{AllStood, StandsAlone, StaysStood};
ghost use Rattle.hx_run.specs.Turns.{counted};
ghost use Rattle.hx_run.specs.declared.running.Halt.TheVariants as halt;

use crate::seats::{RunSeat, seats_of};
use hx_base::{Millis, NoMemory, Order, ServerNo, SessionNo, ThreadNo};
use hx_config::Config;
use hx_link::{MemoryLink, MemoryNet, Net, Plan};
use hx_record::{Left, Served, Told};
use hx_script_parts::ClientLine;
use hx_session::{Step, Waits};
use hx_worker::Worker;
use std::alloc::Global;
use std::marker::Model;

/// The one thread.
const THREAD: ThreadNo = ThreadNo(0);

/// The most marks that a step or a stop makes at a seat.
const STEP_MARKS: usize = 4;

/// The most marks that an order or a round of the caretaker makes at a seat.
const CARE_MARKS: usize = 2_049;

/// Why a replay stops before its end.
#[derive(Clone, Copy, PartialEq, Eq, Debug)]
pub enum Halt {
    /// As many turns were made as may be.
    Overrun,
    NoMemory,
}

impl From<NoMemory> for Halt {
    ghost from_gives = { λ _ e. e ≡ halt.NoMemory };

    fn from(_: NoMemory) -> Halt {
        Halt::NoMemory
    }
}

/// What is left of a replay that is over.
#[derive(Drop)]
pub struct Over {
    pub records: Vec<Told>,
    pub seats: Vec<RunSeat>,
    pub net: MemoryNet,
}

/// Adds what a step or a stop told.
fn tell(records: &mut Vec<Told>, served: Option<Served>, left: Option<Left>) -> Result<(), NoMemory>
    ensures { OnOk result (records.new.items ≡ records.old.items ++ lines_of served left) }
{
    if let Some(served) = served {
        records.push(Told::Served(served))?;
    }
    if let Some(left) = left {
        records.push(Told::Left(left))?;
    }
    Ok(())
}

/// Whether the step ended its session.
fn is_over(step: Step) -> bool
    ensures { result ≡ false → step.waits ≡ Ended → ⊥ }
{
    match step.waits {
        Waits::Ended => true,
        Waits::Nothing | Waits::Client | Waits::Server => false,
    }
}

/// Makes room at a server for so many marks more.
fn room_at(worker: &mut RunWorker<'_>, at: ServerNo, marks: usize) -> Result<(), NoMemory>
    requires working { IsWorking worker.old }
    requires there { at.0 < length worker.old.seats }
    ensures working { IsWorking worker.new }
    ensures same { IsRoomier worker.old worker.new }
    ensures room { (k : ℕ) → k ≡ at.0 → RoomBelow marks k worker.old.journals
        → OnOk result (RoomBelow marks (k + 1) worker.new.journals) }
    ensures size { length worker.new.journals ≡ length worker.old.journals }
{
    worker.seat_mut(at).reserve(marks)
}

/// Makes room at each server for so many marks more.
#[tactic(auto, using(crate::proofs::Working::room_none, crate::proofs::Working::room_all, crate::proofs::Working::seats_few))]
fn make_room(worker: &mut RunWorker<'_>, marks: usize) -> Result<(), NoMemory>
    requires working { IsWorking worker.old }
    ensures working { IsWorking worker.new }
    ensures same { IsRoomier worker.old worker.new }
    ensures room { OnOk result (Each (HasRoom marks) worker.new.journals) }
{
    let mut at = 0;
    while at < worker.servers() {
        room_at(worker, ServerNo(at as u16), marks)?;
        at += 1;
    }
    Ok(())
}

/// The worker of the one thread.
type RunWorker<'a> = Worker<'a, RunSeat, MemoryLink>;

/// The worker and its net, what was told, and how many turns were made: a turn is a step that moved.
#[derive(Drop)]
pub struct Running<'a> {
    worker: RunWorker<'a>,
    net: MemoryNet,
    records: Vec<Told>,
    turns: u64,
    /// As many turns as may be made.
    most: u64,
    /// How many turns the last round made.
    last: u64,
}

impl<'a> Model for Running<'a> {
    ghost use Rattle.hx_run.specs.Runs.{RunNow, run_now, IsRun};

    ghost Value = { RunNow };

    ghost view = { λ r. run_now r.worker r.net r.records.items r.turns r.most r.last };

    ghost invariant = { λ r. IsRun (run_now r.worker r.net r.records.items r.turns r.most r.last) };
}

impl<'a> Running<'a> {
    /// A replay before its first moment, whose connections follow these plans. Its net has room to bury so many links, and
    /// so many turns may be made.
    ///
    /// # Errors
    /// `NoMemory`.
    #[tactic(auto, using(crate::proofs::Beginning::begin_seats))]
    pub fn new(
        alloc: Global,
        config: &'a Config,
        plans: Vec<Plan>,
        room: usize,
        most: u64,
    ) -> Result<Running<'a>, NoMemory>
        requires plans { All IsPlan plans.items }
        ensures config { IfOk result (λ r. r.worker.config ≡ meaning config.now) }
        ensures empty { IfOk result (λ r. (r.worker.sessions ≡ []) × (r.records ≡ []) × (r.turns ≡ 0) × (r.most ≡ most)) }
        ensures course { IfOk result (λ r. (moments : List Millis) → HasCourse plans.items moments [] [] r) }
    {
        let seats = seats_of(alloc, config)?;
        let net = MemoryNet::new(alloc, plans, room)?;
        let worker = Worker::new(alloc, THREAD, config, seats)?;
        Ok(Running {
            worker,
            net,
            records: Vec::new(alloc),
            turns: 0,
            most,
            last: 0,
        })
    }

    /// How many turns were made.
    pub fn turns(&self) -> u64
        ensures { result ≡ self.now.turns }
    {
        self.turns
    }

    /// A client comes at its moment: its link is attached to the loop, and its session begins.
    ///
    /// # Errors
    /// `NoMemory`; one that can't be attached or admitted is buried first. Of a script none is: it has fewer clients than a
    /// worker takes, and a net in memory has room for each link.
    pub fn come(&mut self, line: ClientLine) -> Result<(), NoMemory>
        requires client { is_client_of self.old.worker.config line ≡ true }
        ensures goes { GoesOn self.old self.new }
        ensures turns { self.new.turns ≡ self.old.turns }
        ensures course { OnOk result (ComesOn line self.old self.new) }
    {
        let mut link = MemoryLink::new(line.plan);
        if self.net.attach(&mut link).is_err() {
            self.net.bury(link);
            return Err(NoMemory);
        }
        match self.worker.admit(link, line.front, line.moment) {
            Ok(_) => Ok(()),
            Err(refused) => {
                self.net.bury(refused.client);
                Err(NoMemory)
            }
        }
    }

    /// Carries out an order.
    ///
    /// # Errors
    /// `NoMemory`.
    pub fn order(&mut self, what: Order) -> Result<(), NoMemory>
        requires there { (ordered_server what).0 < length (all_servers self.old.worker.config.backs) }
        ensures goes { GoesOn self.old self.new }
        ensures sessions { self.new.worker.sessions ≡ self.old.worker.sessions }
        ensures turns { self.new.turns ≡ self.old.turns }
        ensures carries { OnOk result (CarriedOut what self.old.worker.seats self.new.worker.seats) }
        ensures course { OnOk result (CaresOn (Ordered what ∷ []) self.old self.new) }
        ensures run { IsRun self.old × IsRun self.new }
    {
        make_room(&mut self.worker, CARE_MARKS)?;
        self.worker.order(&mut self.net, what);
        Ok(())
    }

    /// The caretaker's round.
    ///
    /// # Errors
    /// `NoMemory`.
    pub fn tick(&mut self, now: Millis) -> Result<(), NoMemory>
        ensures goes { GoesOn self.old self.new }
        ensures sessions { self.new.worker.sessions ≡ self.old.worker.sessions }
        ensures turns { self.new.turns ≡ self.old.turns }
        ensures ticks { OnOk result (Ticked now self.old.worker.seats self.new.worker.seats) }
        ensures course { OnOk result (TicksOn now self.old self.new) }
    {
        make_room(&mut self.worker, CARE_MARKS)?;
        self.worker.tick(&mut self.net, now);
        Ok(())
    }

    /// A turn is left.
    ///
    /// # Errors
    /// As many turns were made as may be.
    pub fn may_turn(&self) -> Result<(), Halt>
        ensures left { OnOk result (self.now.turns < self.now.most) }
        ensures fits { OnOk result (self.now.turns + 1 < 2 ^ 64) }
        ensures within { self.now.turns ≤ self.now.most }
        ensures overrun { result ≡ Err halt.Overrun → self.now.turns ≡ self.now.most }
    {
        if self.turns >= self.most {
            return Err(Halt::Overrun);
        }
        Ok(())
    }

    /// A step of a session, and what it tells. It isn't counted yet.
    fn step(&mut self, n: SessionNo, now: Millis) -> Result<Step, NoMemory>
        requires there { IsSome (session_of self.old.worker.sessions n.0) }
        ensures goes { GoesOn self.old self.new }
        ensures turns { self.new.turns ≡ self.old.turns }
        ensures stays { IfOk result (λ r. (r.waits ≡ Ended → ⊥) → IsSome (session_of self.new.worker.sessions n.0)) }
        ensures told { IfOk result (λ r. self.new.records ≡ self.old.records ++ lines_of r.served r.left) }
        ensures course { IfOk result (λ r. StepsOn now r.moved self.old self.new) }
        ensures stood { IfOk result (λ r. StandsAlone now n self.old (counted r.moved self.new)) }
    {
        make_room(&mut self.worker, STEP_MARKS)?;
        let step = self.worker.step(&mut self.net, n, now);
        tell(&mut self.records, step.served, step.left)?;
        Ok(step)
    }

    /// A turn of a session, if one is left. It answers whether the session goes on: it moved, and hasn't ended.
    ///
    /// # Errors
    /// As many turns were made as may be, now or before; or for want of memory.
    fn turn(&mut self, n: SessionNo, now: Millis) -> Result<bool, Halt>
        requires there { IsSome (session_of self.old.worker.sessions n.0) }
        ensures goes { GoesOn self.old self.new }
        ensures moved { result ≡ Ok true → self.old.turns < self.new.turns }
        ensures within { self.new.turns ≤ self.new.most }
        ensures left { OnOk result (self.new.turns < self.new.most) }
        ensures overrun { result ≡ Err halt.Overrun → self.new.turns ≡ self.new.most }
        ensures there { result ≡ Ok true → IsSome (session_of self.new.worker.sessions n.0) }
        ensures stood { OnOk result (StandsAlone now n self.old self.new) }
        // what was told and buried, and how many turns were made
        ensures course { OnOk result (KeepsAt now self.old self.new) }
        ensures stops { result ≡ Err halt.Overrun → KeepsAt now self.old self.new }
    {
        self.may_turn()?;
        let step = self.step(n, now)?;
        if step.moved {
            self.turns += 1;
            self.may_turn()?;
            Ok(!is_over(step))
        } else {
            Ok(false)
        }
    }

    /// A session makes its steps until one doesn't move, or it has ended.
    ///
    /// # Errors
    /// As many turns were made as may be, now or before; or for want of memory.
    fn go_on(&mut self, n: SessionNo, now: Millis) -> Result<(), Halt>
        requires there { IsSome (session_of self.old.worker.sessions n.0) }
        ensures goes { GoesOn self.old self.new }
        ensures within { self.new.turns ≤ self.new.most }
        ensures left { OnOk result (self.new.turns < self.new.most) }
        ensures overrun { result ≡ Err halt.Overrun → self.new.turns ≡ self.new.most }
        ensures stood { OnOk result (StandsAlone now n self.old self.new) }
        ensures course { OnOk result (KeepsAt now self.old self.new) }
        ensures stops { result ≡ Err halt.Overrun → KeepsAt now self.old self.new }
    {
        while self.turn(n, now)? {}
        Ok(())
    }

    /// Each session goes on, by rising number. It answers whether one moved.
    ///
    /// # Errors
    /// As many turns were made as may be, now or before, where a session is there; or for want of memory.
    #[tactic(auto, using(crate::proofs::Going::next_there, crate::proofs::Going::next_over))]
    fn round(&mut self, now: Millis) -> Result<bool, Halt>
        ensures goes { GoesOn self.old self.new }
        ensures moved { result ≡ Ok true → self.old.turns < self.new.turns }
        ensures last { OnOk result (self.old.turns + self.new.last ≡ self.new.turns) }
        ensures still { result ≡ Ok false → self.new.last ≡ 0 }
        ensures within { self.new.turns ≤ self.new.most }
        ensures left { self.old.turns < self.old.most → OnOk result (self.new.turns < self.new.most) }
        ensures overrun { result ≡ Err halt.Overrun → self.new.turns ≡ self.new.most }
        ensures stood { result ≡ Ok false → AllStood now self.new.worker }
        // what was told and buried, and how many turns were made
        ensures course { OnOk result (KeepsAt now self.old self.new) }
        ensures stops { result ≡ Err halt.Overrun → KeepsAt now self.old self.new }
    {
        let before = self.turns;
        let mut after = SessionNo(0);
        while let Some(n) = self.worker.next_session(after) {
            self.go_on(n, now)?;
            after = n;
        }
        self.last = self.turns - before;
        Ok(self.last > 0)
    }

    /// Rounds, until nothing moves in one.
    ///
    /// # Errors
    /// As many turns were made as may be, right behind the last of them; or before, where a session is there. Or for want of memory.
    pub fn rounds(&mut self, now: Millis) -> Result<(), Halt>
        ensures goes { GoesOn self.old self.new }
        ensures left { self.old.turns < self.old.most → OnOk result (self.new.turns < self.new.most) }
        ensures overrun { result ≡ Err halt.Overrun → self.new.turns ≡ self.new.most }
        ensures still { OnOk result (self.new.last ≡ 0) }
        ensures stood { OnOk result (AllStood now self.new.worker) }
        ensures course { OnOk result (KeepsAt now self.old self.new) }
        ensures stops { result ≡ Err halt.Overrun → KeepsAt now self.old self.new }
    {
        while self.round(now)? {}
        Ok(())
    }

    /// Stops the session of the least number. It answers whether there was one.
    fn stop_one(&mut self) -> Result<bool, NoMemory>
        ensures goes { GoesOn self.old self.new }
        ensures fewer { result ≡ Ok true → length self.new.worker.sessions < length self.old.worker.sessions }
        ensures none { result ≡ Ok false → self.new.worker.sessions ≡ [] }
        ensures stops { result ≡ Ok true → StopsFirst self.old self.new }
        ensures turns { self.new.turns ≡ self.old.turns }
        // sessions that stood still at the last moment
        ensures course { OnOk result (StopsOn self.old self.new) }
        ensures stood { OnOk result (StaysStood self.old self.new) }
    {
        make_room(&mut self.worker, STEP_MARKS)?;
        match self.worker.stop_next(&mut self.net) {
            Some(stopped) => {
                tell(&mut self.records, stopped.served, Some(stopped.left))?;
                Ok(true)
            }
            None => Ok(false),
        }
    }

    /// Stops all sessions, by rising number.
    ///
    /// # Errors
    /// `NoMemory`.
    pub fn stop_all(&mut self) -> Result<(), NoMemory>
        ensures goes { GoesOn self.old self.new }
        ensures gone { OnOk result (self.new.worker.sessions ≡ []) }
        ensures turns { self.new.turns ≡ self.old.turns }
        ensures course { OnOk result (StopsOn self.old self.new) }
    {
        while self.stop_one()? {}
        Ok(())
    }

    /// Drains a server.
    fn drain(&mut self, server: ServerNo) -> Result<(), NoMemory>
        requires there { server.0 < length (all_servers self.old.worker.config.backs) }
        requires empty { self.old.worker.sessions ≡ [] }
        ensures goes { GoesOn self.old self.new }
        ensures empty { self.new.worker.sessions ≡ [] }
        ensures turns { self.new.turns ≡ self.old.turns }
        ensures closed { (k : ℕ) → k ≡ server.0 → ClosedBelow k self.old.worker.seats
            → OnOk result (ClosedBelow (k + 1) self.new.worker.seats) }
        ensures course { OnOk result (CaresOn (Ordered (Drain server) ∷ []) self.old self.new) }
    {
        self.order(Order::Drain(server))
    }

    /// How many servers there are.
    #[tactic(auto, using(crate::proofs::Working::seats_few, crate::proofs::Working::seats_all))]
    fn servers(&self) -> usize
        ensures seats { result ≡ length self.now.worker.seats }
        ensures all { result ≡ length (all_servers self.now.worker.config.backs) }
        ensures few { result ≤ 32 }
    {
        self.worker.servers()
    }

    /// Drains each server, in order.
    ///
    /// # Errors
    /// `NoMemory`.
    pub fn drain_all(&mut self) -> Result<(), NoMemory>
        requires empty { self.old.worker.sessions ≡ [] }
        ensures goes { GoesOn self.old self.new }
        ensures empty { self.new.worker.sessions ≡ [] }
        ensures turns { self.new.turns ≡ self.old.turns }
        ensures closed { OnOk result (ClosedBelow (length self.new.worker.seats) self.new.worker.seats) }
        ensures course { OnOk result (CaresOn (drains_below (length (all_servers self.old.worker.config.backs))) self.old self.new) }
    {
        let mut at = 0;
        while at < self.servers() {
            self.drain(ServerNo(at as u16))?;
            at += 1;
        }
        Ok(())
    }

    /// What is left once all is over.
    ///
    /// # Errors
    /// `NoMemory` where memory was wanted for a link or for what the net keeps.
    pub fn end(self) -> Result<Over, NoMemory>
        ensures seats { IfOk result (λ r. map (λ (j : Journal). j.history) r.seats.items ≡ self.entry.worker.seats) }
        ensures journals { IfOk result (λ r. map (room_of journal_from (λ (j : Journal). j.room)) r.seats.items ≡ self.entry.worker.journals) }
        ensures records { IfOk result (λ r. r.records.items ≡ self.entry.records) }
        ensures net { IfOk result (λ r. (r.net ≡ self.entry.net) × (r.net.starved ≡ false)) }
        ensures run { IsRun self.entry }
    {
        if self.net.starved() {
            return Err(NoMemory);
        }
        let Running {
            worker,
            net,
            records,
            ..
        } = self;
        Ok(Over {
            records,
            seats: worker.into_seats(),
            net,
        })
    }
}
