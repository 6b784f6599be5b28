//! The replay of a whole script, by its moments.
ghost use Rattle.std.specs.Prelude.{◌≡◌, ◌<◌, [], false, Err, IfOk, OnOk};
ghost use Rattle.hx_config.specs.Limits.{all_servers};
ghost use Rattle.hx_script_parts.specs.Views.{meaning};
ghost use Rattle.hx_run.specs.Dues.{AreDue};
ghost use Rattle.hx_run.specs.Overs.{AreOver, histories};
ghost use Rattle.hx_run.specs.Cares.{LastIsOther};
ghost use Rattle.hx_run.specs.Courses.{ComesAll, ComesAt, ComesIn, ComesUpTo, EndsCourse, EndsPlanned, MakesAll, MakesFewer, ObeysAll};
ghost use Rattle.hx_run.specs.Runs.{GoesOn};
ghost use Rattle.hx_run.specs.Standings.{AllStood, AllStoodLast};
ghost use Rattle.hx_run.specs.declared.running.Halt.TheVariants as halt;

use crate::due::{Due, all_have_moments, clients_due, orders_due};
use crate::ran::Ran;
use crate::running::{Halt, Running};
use hx_base::{Items, Millis, NoMemory};
use hx_script_parts::Script;
use std::alloc::Global;

/// The orders of a moment are carried out.
fn run_orders(running: &mut Running<'_>, due: &mut Due, now: Millis) -> Result<(), NoMemory>
    requires due { AreDue running.old.worker.config due.old }
    ensures goes { GoesOn running.old running.new }
    ensures due { AreDue running.old.worker.config due.new }
    ensures clients { due.new.clients.items ≡ due.old.clients.items }
    ensures turns { running.new.turns ≡ running.old.turns }
    ensures course { OnOk result (ObeysAll now running.old due.old.orders.items running.new due.new.orders.items) }
    ensures other { OnOk result (LastIsOther now due.new.orders.items) }
{
    while let Some(what) = due.order(now) {
        running.order(what)?;
    }
    Ok(())
}

/// The clients of a moment come.
fn run_clients(running: &mut Running<'_>, due: &mut Due, now: Millis) -> Result<(), NoMemory>
    requires due { AreDue running.old.worker.config due.old }
    ensures goes { GoesOn running.old running.new }
    ensures due { AreDue running.old.worker.config due.new }
    ensures turns { running.new.turns ≡ running.old.turns }
    ensures orders { due.new.orders.items ≡ due.old.orders.items }
    ensures course { OnOk result (ComesAll running.old due.old.clients.items running.new due.new.clients.items) }
{
    while let Some(line) = due.client(now) {
        running.come(line)?;
    }
    Ok(())
}

/// A moment: its orders, its clients, the caretaker's round, and rounds until nothing moves.
fn run_moment(running: &mut Running<'_>, due: &mut Due, now: Millis) -> Result<(), Halt>
    requires due { AreDue running.old.worker.config due.old }
    ensures goes { GoesOn running.old running.new }
    ensures due { AreDue running.old.worker.config due.new }
    ensures left { running.old.turns < running.old.most → OnOk result (running.new.turns < running.new.most) }
    ensures overrun { result ≡ Err halt.Overrun → running.new.turns ≡ running.new.most }
    // what was told and buried, whose clients came, what the caretaker was asked for, and how many turns were made
    ensures course { OnOk result (ComesAt now running.old due.old running.new due.new) }
    ensures stood { OnOk result (AllStood now running.new.worker) }
    ensures stops { result ≡ Err halt.Overrun → ComesAt now running.old due.old running.new due.new }
{
    run_orders(running, due, now)?;
    run_clients(running, due, now)?;
    running.tick(now)?;
    running.rounds(now)
}

/// The moments in order. A replay that may make no turn overruns before the first one.
fn run_moments(running: &mut Running<'_>, due: &mut Due, moments: &[Millis]) -> Result<(), Halt>
    requires due { AreDue running.old.worker.config due.old }
    requires empty { running.old.worker.sessions ≡ [] }
    ensures goes { GoesOn running.old running.new }
    ensures left { OnOk result (running.new.turns < running.new.most) }
    ensures overrun { result ≡ Err halt.Overrun → running.new.turns ≡ running.new.most }
    // what was told and buried, whose clients came, what the caretaker was asked for, and how many turns were made
    ensures course { OnOk result (ComesIn moments.now moments.now [] running.old due.old running.new due.new) }
    ensures stood { OnOk result (AllStoodLast moments.now running.new.worker) }
    ensures stops { result ≡ Err halt.Overrun → ComesUpTo moments.now running.old due.old running.new due.new }
{
    running.may_turn()?;
    for now in moments {
        run_moment(running, due, *now)?;
    }
    Ok(())
}

/// No client is due any more. Behind the last moment that is always so, since the moments of a script have that of each of
/// its clients.
///
/// # Errors
/// `NoMemory` where one is.
fn all_came(due: &Due) -> Result<(), NoMemory>
    ensures none { OnOk result (due.now.clients.items ≡ []) }
{
    match due.clients.last() {
        None => Ok(()),
        Some(_) => Err(NoMemory),
    }
}

/// Replays a script of one thread: its moments in order, and behind the last one each session is stopped and each server is
/// drained. Fewer turns than `most` may be made.
///
/// # Errors
/// `Overrun` right behind the turn that makes it `most` turns, whatever would be left to do; where `most` is 0, before the first
/// moment. Or for want of memory.
pub fn run_script(alloc: Global, script: Script, most: u64) -> Result<Ran, Halt>
    ensures config { IfOk result (λ ran. ran.config ≡ script.config) }
    ensures over { IfOk result (λ ran. AreOver (all_servers script.config.backs) ran.seats) }
    ensures told { IfOk result (λ ran. ran.net.starved ≡ false) }
    ensures course { IfOk result (λ ran. EndsCourse ran.records ran.net.state) }
    ensures plans { IfOk result (λ ran. EndsPlanned script.clients script.plans ran.records ran.net.state) }
    // the turns: fewer, or just as many
    ensures within { IfOk result (λ ran. MakesFewer (meaning script) most ran.records ran.net.state (histories ran.seats)) }
    ensures overrun { result ≡ Err halt.Overrun → MakesAll (meaning script) most }
{
    let Script {
        config,
        clients,
        plans,
        orders,
        moments,
        ..
    } = script;
    let plans = plans.into_vec();
    let mut due = Due {
        clients: clients_due(clients)?,
        orders: orders_due(orders)?,
    };
    all_have_moments(due.orders.as_slice(), moments.as_slice())?;
    let room = plans.len() + due.clients.len();
    let mut running = Running::new(alloc, &config, plans, room, most)?;
    run_moments(&mut running, &mut due, moments.as_slice())?;
    all_came(&due)?;
    running.stop_all()?;
    running.drain_all()?;
    let over = running.end()?;
    Ok(Ran {
        config,
        records: Items::from_vec(over.records),
        seats: Items::from_vec(over.seats),
        net: over.net,
    })
}
