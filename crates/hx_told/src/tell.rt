//! What a whole replay did, told as a transcript.
ghost use Rattle.std.specs.Prelude.{◌≡◌, ℕ, All, IfOk, List, length};
ghost use Rattle.hx_base.specs.declared.plan.Plan.{Plan};
ghost use Rattle.hx_config.specs.Limits.{all_servers};
ghost use Rattle.hx_run.specs.Courses.{EndsCourse, EndsPlanned, MakesFewer};
ghost use Rattle.hx_run.specs.Overs.{AreOver, histories};
ghost use Rattle.hx_script.specs.PrintedForm.{ClientBefore, ConnBefore, Rises, IsToldServer};
ghost use Rattle.hx_script.specs.TrueTranscript.{IsTrueTranscript};
ghost use Rattle.hx_script_parts.specs.Meaning.{Meaning};
ghost use Rattle.hx_script_parts.specs.declared.script.ClientLine.{ClientLine};
ghost use Rattle.hx_run.specs.Cares.{all_cares};
ghost use Rattle.hx_told.specs.CaredFor.{AreCaredFor};
ghost use Rattle.hx_told.specs.Caused.{CausedByScript};
ghost use Rattle.hx_told.specs.Ends.{ends_of, EndsByPlan};
ghost use Rattle.hx_told.specs.Follows.{FollowsScript};
ghost use Rattle.hx_told.specs.Quiet.{QuietByScript};
ghost use Rattle.hx_told.specs.Servers.{named_servers, parts_of, all_sums};
ghost use Rattle.hx_told.specs.Telling.{TellsLinks};

use crate::form::{are_named, are_told, have_own_names};
use crate::links::{LinkBytes, all_lefts, tell_links};
use crate::order::{order_clients, order_conns};
use crate::servers::{name_servers, tell_servers, tell_totals};
use hx_base::{Items, NoMemory, Totals};
use hx_link::MemoryNet;
use hx_record::Told;
use hx_run::Ran;
use hx_script::{ServerPart, Transcript};
use std::alloc::Global;

/// The bytes of the links that the net keeps, in the order of a transcript.
///
/// # Errors
/// `NoMemory` for want of memory, now or before, so that a link doesn't tell its bytes; and where not just as many sessions
/// ended as there are clients' links, or a session or a connection stands twice.
fn tell_net(alloc: Global, records: &[Told], net: MemoryNet) -> Result<LinkBytes, NoMemory>
    ensures links { IfOk result (λ told. TellsLinks records.now net
        told.clients.items told.conns.items) }
    ensures clients { IfOk result (λ told. Rises ClientBefore told.clients.items) }
    ensures conns { IfOk result (λ told. Rises ConnBefore told.conns.items) }
{
    if net.starved() {
        return Err(NoMemory);
    }
    let lefts = all_lefts(alloc, records)?;
    let told = tell_links(alloc, lefts.as_slice(), net.into_buried())?;
    Ok(LinkBytes {
        clients: order_clients(told.clients)?,
        conns: order_conns(told.conns)?,
    })
}

/// The transcript of these parts.
///
/// # Errors
/// Where two servers have one name, a record or a connection names none of them, or an early cut doesn't close.
fn put_together(
    servers: Vec<ServerPart>,
    records: Items<Told>,
    links: LinkBytes,
    totals: Vec<Totals>,
) -> Result<Transcript, NoMemory>
    requires told { All IsToldServer servers.items }
    requires clients { Rises ClientBefore links.clients.items }
    requires conns { Rises ConnBefore links.conns.items }
    requires totals { length totals.items ≡ length servers.items }
    ensures servers { IfOk result (λ t. t.servers ≡ servers.items) }
    ensures records { IfOk result (λ t. t.records ≡ records) }
    ensures clients { IfOk result (λ t. t.clients ≡ links.clients.items) }
    ensures conns { IfOk result (λ t. t.conns ≡ links.conns.items) }
    ensures totals { IfOk result (λ t. t.totals ≡ totals.items) }
{
    let count = servers.len();
    if !have_own_names(servers.as_slice())
        || !are_told(count, records.as_slice())
        || !are_named(count, links.conns.as_slice())
    {
        return Err(NoMemory);
    }
    Ok(Transcript {
        servers: Items::from_vec(servers),
        records,
        clients: Items::from_vec(links.clients),
        conns: Items::from_vec(links.conns),
        totals: Items::from_vec(totals),
    })
}

/// The transcript of a replay that is over: the configuration's servers with the marks and the totals of their seats, the
/// records, and the bytes of all links that were buried. The k-th session that ended is that of the k-th link that was
/// buried and not dialled. All that it tells is true, and a connection ended just where its link told its end. Where each
/// link followed its plan in a script, the clients are those of the script's lines, and the connections followed its plans. Where
/// the records are those of a replay of a script, each has its cause there, and the marks of each server show its orders and rounds.
///
/// # Errors
/// `NoMemory` for want of memory, now or before, so that a mark or a byte isn't kept; and where the parts don't fit
/// together: not one seat a server or one client's link a session that ended, a session or a connection twice, two servers
/// of one name, or a mark, a record or a connection that no line tells.
pub fn tell_run(alloc: Global, ran: Ran) -> Result<Transcript, NoMemory>
    requires over { AreOver (all_servers ran.config.backs) ran.seats }
    requires course { EndsCourse ran.records ran.net.state }
    ensures is_true { IfOk result (λ t. IsTrueTranscript t (ends_of ran.net.links)) }
    ensures ended { IfOk result (λ t. All (EndsByPlan ran.net.links) t.conns) }
    ensures plans { (lines : List ClientLine) (plans : List Plan) → EndsPlanned lines plans ran.records ran.net.state
        → IfOk result (λ t. FollowsScript lines plans (ends_of ran.net.links) t.clients t.conns) }
    ensures causes { (script : Meaning) (most : ℕ) → MakesFewer script most ran.records ran.net.state (histories ran.seats)
        → IfOk result (CausedByScript script (ends_of ran.net.links)) }
    ensures quiet { (script : Meaning) (most : ℕ) → MakesFewer script most ran.records ran.net.state (histories ran.seats)
        → IfOk result (QuietByScript script) }
    ensures cares { (script : Meaning) (most : ℕ) → MakesFewer script most ran.records ran.net.state (histories ran.seats)
        → IfOk result (λ t. AreCaredFor (all_cares script) 0 t.servers) }
    ensures servers { IfOk result (λ t. t.servers
        ≡ parts_of (named_servers ran.config.backs) ran.seats) }
    ensures totals { IfOk result (λ t. t.totals ≡ all_sums ran.seats) }
    ensures records { IfOk result (λ t. t.records ≡ ran.records) }
    ensures links { IfOk result (λ t. TellsLinks ran.records ran.net t.clients t.conns) }
{
    let Ran {
        config,
        records,
        seats,
        net,
    } = ran;
    let names = name_servers(alloc, &config)?;
    let servers = tell_servers(alloc, names, seats.as_slice())?;
    let totals = tell_totals(alloc, seats.as_slice())?;
    let links = tell_net(alloc, records.as_slice(), net)?;
    put_together(servers, records, links, totals)
}
