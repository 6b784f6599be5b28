//! Sessions of one thread, one after the other, over seats, turns and a net in memory.
ghost use Rattle.std.specs.Prelude.{◌≡◌, true, false, All, IfOk, OnOk, Ok, Some, length, map, replicate};
ghost use Rattle.hx_config.specs.Limits.{all_servers};
ghost use Rattle.hx_config.specs.Views.{meaning};
ghost use Rattle.hx_link.specs.MemoryNets.{IsPlan};
ghost use Rattle.hx_pool.specs.Journal.{Journal};
ghost use Rattle.hx_session_tests.specs.Begins.{BeginsFor, BeginFor};
ghost use Rattle.hx_session.specs.Stages.{IsNewClient};
ghost use Rattle.hx_session.specs.declared.step.Waits.TheVariants.{Ended};
ghost use Rattle.hx_session_tests.specs.Benches.{IsBench, IsEmpty, IsVisit};

use hx_base::{Millis, NoMemory, ServerNo, SessionNo, ThreadNo};
use hx_config::{Config, Server};
use hx_conn::Rested;
use hx_link::{MemoryLink, MemoryNet, Net, Plan};
use hx_plain::PlainSeat;
use hx_pool::{JournalSeat, Seat};
use hx_record::{Left, Served, Told};
use hx_session::{Session, Step, Stop, Unadmitted, Waits};
use std::alloc::Global;

/// More steps than a session makes here at one moment.
const MOST_STEPS: u32 = 4_096;

/// A seat of one thread, and the marks of its calls.
pub(crate) type RunSeat = JournalSeat<PlainSeat<Rested<MemoryLink>>>;

/// Why a visit isn't whole.
pub(crate) type Broken = &'static str;

/// Whether the limits of a plan are at least 1.
fn is_plan(plan: &Plan) -> bool
    ensures { result ≡ true → IsPlan plan.now }
{
    plan.room != Some(0) && plan.fail != Some(0)
}

fn are_plans(plans: &[Plan]) -> bool
    ensures { result ≡ true → All IsPlan plans.now }
{
    for plan in plans {
        if !is_plan(plan) {
            return false;
        }
    }
    true
}

fn seat_of(alloc: Global, server: &Server) -> Result<RunSeat, NoMemory>
    ensures begins { IfOk result (λ j. BeginsFor server.now j.history) }
{
    let seat = PlainSeat::new(alloc, server.no, server.rules, Millis(0))?;
    Ok(JournalSeat::new(alloc, seat))
}

/// A seat for each server of the configuration, in order.
#[tactic(auto, using(crate::proofs::Begun::begin_more, crate::proofs::Begun::begin_all))]
fn seats_of(alloc: Global, config: &Config) -> Result<Vec<RunSeat>, NoMemory>
    ensures begin { IfOk result (λ seats. BeginFor (all_servers config.now.backs) (map (λ (j : Journal). j.history) seats.items)) }
{
    let mut seats = Vec::new(alloc);
    let mut at = 0;
    while let Some(server) = config.server(ServerNo(at)) {
        seats.push(seat_of(alloc, server)?)?;
        at += 1;
    }
    Ok(seats)
}

/// What sessions of one thread work with.
#[derive(Drop)]
pub(crate) struct Bench {
    pub seats: Vec<RunSeat>,
    pub turns: Vec<u16>,
    pub net: MemoryNet,
}

/// Seats at which nothing has happened, turns of 0, and a net with these plans.
pub(crate) fn new_bench(alloc: Global, config: &Config, plans: Vec<Plan>) -> Result<Bench, Broken>
    ensures empty { IfOk result (λ b. IsEmpty (meaning config.now) (map (λ (j : Journal). j.history) b.seats.items) b.turns.items b.net.state) }
{
    if !are_plans(plans.as_slice()) {
        return Err("a plan has a limit of 0");
    }
    let Ok(net) = MemoryNet::new(alloc, plans, 0) else {
        return Err("no memory for the net");
    };
    let Ok(seats) = seats_of(alloc, config) else {
        return Err("no memory for the seats");
    };
    let Ok(turns) = new_turns(alloc, config) else {
        return Err("no memory for the turns");
    };
    Ok(Bench { seats, turns, net })
}

fn new_turns(alloc: Global, config: &Config) -> Result<Vec<u16>, NoMemory>
    ensures turns { IfOk result (λ ts. ts.items ≡ replicate (length config.now.backs) 0) }
{
    Ok(vec![in alloc; 0; config.backs.as_slice().len()]?)
}

/// Adds what a step or a stop told.
fn tell(
    records: &mut Vec<Told>,
    served: Option<Served>,
    left: Option<Left>,
) -> Result<(), NoMemory> {
    if let Some(served) = served {
        records.push(Told::Served(served))?;
    }
    if let Some(left) = left {
        records.push(Told::Left(left))?;
    }
    Ok(())
}

/// Whether the step ended its session.
fn is_over(step: Step) -> bool
    ensures over { result ≡ true → step.waits ≡ Ended }
    ensures on { result ≡ false → step.waits ≡ Ended → ⊥ }
{
    match step.waits {
        Waits::Ended => true,
        Waits::Nothing | Waits::Client | Waits::Server => false,
    }
}

/// One step of a session that goes on.
fn step_on<S: Seat<Rested<MemoryLink>>>(
    session: &mut Session<MemoryLink>,
    config: &Config,
    seats: &mut [S],
    turns: &mut [u16],
    net: &mut MemoryNet,
    now: Millis,
) -> Step
    requires visit { IsVisit (meaning config.now) (map S.history seats.old) turns.old net.old.state session.old }
    ensures off { result.waits ≡ Ended → IsEmpty (meaning config.now) (map S.history seats.new) turns.new net.new.state }
    ensures over { result.waits ≡ Ended → session.new.over ≡ true }
    ensures on { (result.waits ≡ Ended → ⊥) → IsVisit (meaning config.now) (map S.history seats.new) turns.new net.new.state session.new }
{
    session.step(config, seats, turns, net, now)
}

/// A session makes its steps until it has ended or finds nothing to do. It answers whether it has ended.
fn go_on<S: Seat<Rested<MemoryLink>>>(
    session: &mut Session<MemoryLink>,
    config: &Config,
    seats: &mut [S],
    turns: &mut [u16],
    net: &mut MemoryNet,
    records: &mut Vec<Told>,
    now: Millis,
) -> Result<bool, Broken>
    requires visit { IsVisit (meaning config.now) (map S.history seats.old) turns.old net.old.state session.old }
    ensures off { result ≡ Ok true → IsEmpty (meaning config.now) (map S.history seats.new) turns.new net.new.state }
    ensures over { result ≡ Ok true → session.new.over ≡ true }
    ensures on { result ≡ Ok false → IsVisit (meaning config.now) (map S.history seats.new) turns.new net.new.state session.new }
{
    for _ in 0..MOST_STEPS {
        let step = step_on(session, config, seats, turns, net, now);
        if tell(records, step.served, step.left).is_err() {
            return Err("no memory for the records");
        }
        if is_over(step) {
            return Ok(true);
        }
        if !step.moved {
            return Ok(false);
        }
    }
    Err("a session goes on and on")
}

/// A session goes on at each of these moments, and is stopped behind the last one where it hasn't ended. Its client's
/// link is buried.
fn go_through<S: Seat<Rested<MemoryLink>>>(
    session: Session<MemoryLink>,
    config: &Config,
    seats: &mut [S],
    turns: &mut [u16],
    net: &mut MemoryNet,
    records: &mut Vec<Told>,
    moments: &[Millis],
) -> Result<(), Broken>
    requires visit { IsVisit (meaning config.now) (map S.history seats.old) turns.old net.old.state session }
    ensures empty { OnOk result (IsEmpty (meaning config.now) (map S.history seats.new) turns.new net.new.state) }
{
    let mut session = session;
    for now in moments {
        if go_on(&mut session, config, seats, turns, net, records, *now)? {
            net.bury(session.end());
            return Ok(());
        }
    }
    let Stop {
        served,
        left,
        client,
    } = session.stop(seats, net);
    net.bury(client);
    match tell(records, served, Some(left)) {
        Ok(()) => Ok(()),
        Err(_) => Err("no memory for the records"),
    }
}

/// A client's link, which is attached to the net's loop.
#[tactic(auto, using(crate::proofs::Benches::same_loop_no, crate::proofs::Benches::on_its_loop, crate::proofs::Benches::new_client))]
fn attached_link(net: &mut MemoryNet, plan: Plan) -> Result<MemoryLink, Broken>
    ensures loop_ { IfOk result (λ l. l.state.on_loop ≡ Some net.old.state.loop_no) }
    ensures new { IfOk result (λ l. IsNewClient l.state) }
    ensures same { net.new.state.loop_no ≡ net.old.state.loop_no }
{
    if !is_plan(&plan) {
        return Err("the plan has a limit of 0");
    }
    let mut link = MemoryLink::new(plan);
    match net.attach(&mut link) {
        Ok(()) => Ok(link),
        Err(_) => Err("not attached"),
    }
}

/// A client comes to that frontend, and its session goes on at each of these moments, the first of which is that of its
/// admission.
pub(crate) fn visit<S: Seat<Rested<MemoryLink>>>(
    alloc: Global,
    config: &Config,
    seats: &mut [S],
    turns: &mut [u16],
    net: &mut MemoryNet,
    records: &mut Vec<Told>,
    client: (Plan, u16, SessionNo),
    moments: &[Millis],
) -> Result<(), Broken>
    requires empty { IsEmpty (meaning config.now) (map S.history seats.old) turns.old net.old.state }
    ensures empty { OnOk result (IsEmpty (meaning config.now) (map S.history seats.new) turns.new net.new.state) }
{
    let (plan, front, n) = client;
    let Some(now) = moments.first() else {
        return Err("no moment");
    };
    if n.0 == 0 || front as usize >= config.fronts.as_slice().len() {
        return Err("not a client");
    }
    let link = attached_link(net, plan)?;
    match Session::admit(alloc, link, ThreadNo(0), n, front, *now) {
        Ok(session) => go_through(session, config, seats, turns, net, records, moments),
        Err(Unadmitted { .. }) => Err("not admitted"),
    }
}
