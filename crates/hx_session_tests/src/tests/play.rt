//! The text of a script, played by calls of sessions: its clients come one after the other.
ghost use Rattle.std.specs.Prelude.{map};
ghost use Rattle.hx_config.specs.Views.{meaning};
ghost use Rattle.hx_session_tests.specs.Benches.{IsEmpty};

use crate::tests::bench::{Bench, Broken, RunSeat, new_bench, visit};
use crate::tests::spell::{mark_line, quoted, record_line, server_line};
use hx_base::{ConnId, Millis, NoMemory, Order, ServerNo, SessionNo, Totals};
use hx_caretaker::order_seats;
use hx_config::Config;
use hx_conn::Rested;
use hx_link::{LinkBytes, MemoryLink, MemoryNet};
use hx_pool::Seat;
use hx_record::Told;
use hx_script_parts::{ClientLine, Script, read_script};
use hx_stats::{Tally, report};
use std::alloc::Global;

/// More connections than any server has here.
const MOST_CONNS: u64 = 9;

/// More servers than there are here.
const MOST_SERVERS: u16 = 4;

/// The moments from this one on.
fn moments_from(moments: &[Millis], from: Millis) -> &[Millis] {
    for (at, moment) in moments.iter().enumerate() {
        if moment.0 >= from.0 {
            return &moments[at..];
        }
    }
    &[]
}

/// The clients come one after the other, each with the next number.
fn visit_all<S: Seat<Rested<MemoryLink>>>(
    alloc: Global,
    config: &Config,
    seats: &mut [S],
    turns: &mut [u16],
    net: &mut MemoryNet,
    clients: Vec<ClientLine>,
    moments: &[Millis],
) -> Result<Vec<Told>, Broken>
    requires empty { IsEmpty (meaning config.now) (map S.history seats.old) turns.old net.old.state }
{
    let mut records = Vec::new(alloc);
    let mut n = SessionNo(0);
    for line in clients {
        n = SessionNo(n.0.saturating_add(1));
        let client = (line.plan, line.front, n);
        let from = moments_from(moments, line.moment);
        visit(alloc, config, seats, turns, net, &mut records, client, from)?;
    }
    Ok(records)
}

/// Drains each server.
fn drain_all(seats: &mut [RunSeat], net: &mut MemoryNet) {
    for at in 0..MOST_SERVERS {
        if (at as usize) < seats.len() {
            order_seats(seats, net, Order::Drain(ServerNo(at)));
        }
    }
}

fn put_marks(alloc: Global, out: &mut String, seats: &[RunSeat]) -> Result<(), NoMemory> {
    let mut no = 0u16;
    for seat in seats {
        out.push_str(server_line(alloc, no, seat.rules())?.as_str())?;
        for mark in seat.marks() {
            out.push_str(mark_line(alloc, *mark)?.as_str())?;
        }
        no = no.saturating_add(1);
    }
    Ok(())
}

fn record_lines(alloc: Global, records: &[Told]) -> Result<String, NoMemory> {
    let mut out = String::new(alloc);
    for told in records {
        out.push_str(record_line(alloc, *told)?.as_str())?;
    }
    Ok(out)
}

/// A link that was buried: its server and its id where it was dialled, and its bytes.
#[derive(Drop)]
struct Buried {
    dial: Option<(ServerNo, ConnId)>,
    bytes: LinkBytes,
}

fn all_buried(alloc: Global, net: MemoryNet) -> Result<Vec<Buried>, NoMemory> {
    let mut all = Vec::new(alloc);
    for link in net.into_buried() {
        all.push(Buried {
            dial: link.dial(),
            bytes: link.into_bytes()?,
        })?;
    }
    Ok(all)
}

/// The lines of the clients, by session.
fn put_clients(alloc: Global, out: &mut String, all: &[Buried]) -> Result<(), NoMemory> {
    let mut n = 0u32;
    for link in all {
        if link.dial.is_none() {
            n = n.saturating_add(1);
            let took = quoted(alloc, link.bytes.taken.as_slice())?;
            let gave = quoted(alloc, link.bytes.sent.as_slice())?;
            out.push_str(format!(in alloc; "client 0.{n} took {took}\n")?.as_str())?;
            out.push_str(format!(in alloc; "client 0.{n} gave {gave}\n")?.as_str())?;
        }
    }
    Ok(())
}

/// The lines of the connection with this id.
fn put_conn(
    alloc: Global,
    out: &mut String,
    all: &[Buried],
    server: u16,
    id: u64,
) -> Result<(), NoMemory> {
    for link in all {
        if link.dial == Some((ServerNo(server), ConnId(id))) {
            let place = server as u32 + 1;
            let sent = quoted(alloc, link.bytes.sent.as_slice())?;
            let took = quoted(alloc, link.bytes.taken.as_slice())?;
            out.push_str(format!(in alloc; "conn web/s{place}#{id} sent {sent}\n")?.as_str())?;
            out.push_str(format!(in alloc; "conn web/s{place}#{id} took {took}\n")?.as_str())?;
        }
    }
    Ok(())
}

/// The lines of a server's connections, by id.
fn put_conns(alloc: Global, out: &mut String, all: &[Buried], server: u16) -> Result<(), NoMemory> {
    for id in 1..=MOST_CONNS {
        put_conn(alloc, out, all, server, id)?;
    }
    Ok(())
}

fn put_links(
    alloc: Global,
    out: &mut String,
    servers: usize,
    net: MemoryNet,
) -> Result<(), NoMemory> {
    let all = all_buried(alloc, net)?;
    out.push_str("links\n")?;
    put_clients(alloc, out, all.as_slice())?;
    let mut no = 0u16;
    for _ in 0..servers {
        put_conns(alloc, out, all.as_slice(), no)?;
        no = no.saturating_add(1);
    }
    Ok(())
}

fn put_totals(alloc: Global, out: &mut String, seats: &[RunSeat]) -> Result<(), NoMemory> {
    out.push_str("totals\n")?;
    for (at, seat) in seats.iter().enumerate() {
        let totals: Totals = Tally::of(seat.marks());
        let place = at.saturating_add(1);
        out.push_str(format!(in alloc; "web/s{place} ")?.as_str())?;
        for byte in report(alloc, &totals)? {
            out.push(byte as char)?;
        }
    }
    Ok(())
}

/// What sessions did.
#[derive(Drop)]
pub(crate) struct Played {
    /// Their records, one a line.
    pub records: String,
    /// The whole transcript.
    pub whole: String,
}

fn tell_all(alloc: Global, bench: Bench, records: &[Told]) -> Result<Played, NoMemory> {
    let Bench { seats, net, .. } = bench;
    let records = record_lines(alloc, records)?;
    let mut out = String::new(alloc);
    out.push_str("hx-transcript 1\n")?;
    put_marks(alloc, &mut out, seats.as_slice())?;
    out.push_str("records\n")?;
    out.push_str(records.as_str())?;
    put_links(alloc, &mut out, seats.len(), net)?;
    put_totals(alloc, &mut out, seats.as_slice())?;
    out.push_str("end\n")?;
    Ok(Played {
        records,
        whole: out,
    })
}

/// The lines, each with its end.
pub(crate) fn joined(alloc: Global, lines: &[&str]) -> Result<String, NoMemory> {
    let mut text = String::new(alloc);
    for line in lines {
        text.push_str(line)?;
        text.push('\n')?;
    }
    Ok(text)
}

/// What the sessions of a script's clients do.
pub(crate) fn play(alloc: Global, text: &str) -> Result<Played, Broken> {
    let Ok(script) = read_script(alloc, text.as_bytes()) else {
        return Err("the script has a fault");
    };
    let Script {
        config,
        clients,
        plans,
        moments,
        ..
    } = script;
    let mut bench = new_bench(alloc, &config, plans.into_vec())?;
    let records = visit_all(
        alloc,
        &config,
        bench.seats.as_mut_slice(),
        bench.turns.as_mut_slice(),
        &mut bench.net,
        clients.into_vec(),
        moments.as_slice(),
    )?;
    drain_all(bench.seats.as_mut_slice(), &mut bench.net);
    match tell_all(alloc, bench, records.as_slice()) {
        Ok(told) => Ok(told),
        Err(_) => Err("no memory for the transcript"),
    }
}

/// The whole transcript of a script's lines.
pub(crate) fn play_lines(alloc: Global, lines: &[&str]) -> Result<String, Broken> {
    let Ok(text) = joined(alloc, lines) else {
        return Err("no memory for the script");
    };
    Ok(play(alloc, text.as_str())?.whole)
}

/// The first lines of a script, over one server whose connections are always shared. The configuration has so many
/// lines, of which this is the last but one.
fn opening(alloc: Global, timeout: &str) -> Result<String, NoMemory> {
    Ok(format!(in alloc;
        "hx-script 1\nconfig 5\nlisten web\n  bind :8080\n  http-reuse always\n  {timeout}\n  server s1 127.0.0.1:9001\n"
    )?)
}

/// The records over one server, where the frontend has this timeout, or another line, and links have these lines.
pub(crate) fn records_of(alloc: Global, timeout: &str, links: &[&str]) -> Result<String, Broken> {
    let Ok(mut text) = opening(alloc, timeout) else {
        return Err("no memory for the script");
    };
    let Ok(links) = joined(alloc, links) else {
        return Err("no memory for the links");
    };
    if text.push_str(links.as_str()).is_err() {
        return Err("no memory for the whole script");
    }
    Ok(play(alloc, text.as_str())?.records)
}
