//! The fourth rule: a record is true of the bytes that its ranges name.
ghost use Rattle.std.specs.Prelude.{◌≡◌, ◌↔◌, IsTrue, MatchOption};
ghost use Rattle.hx_base.specs.Spans.{bytes_in, LiesIn};
ghost use Rattle.hx_record.specs.declared.served.Kind.TheVariants as kind;
ghost use Rattle.hx_check_parts.specs.Links.{client_took, client_gave, conn_sent, conn_took};
ghost use Rattle.hx_check_parts.specs.Each.{HoldsOfEach, FailsFirst};
ghost use Rattle.hx_check.specs.Records.{Ranges, ask_bytes, sent_bytes, took_bytes, gave_bytes, KindHolds, RecordHolds, RecordIn};

use hx_base::Span;
use hx_check_parts::{Clients, Conns};
use hx_check_records::{cut_holds, own_holds, pass_holds};
use hx_script::{Carried, CutCause, Kind, Served, Told};

fn lies_in(span: Span, bytes: &[u8]) -> bool
    ensures { IsTrue result ↔ LiesIn span bytes.now }
{
    span.from <= span.to && span.to <= bytes.len() as u64
}

/// The bytes of a range.
fn part(bytes: &[u8], span: Span) -> &[u8]
    requires { LiesIn span bytes.now }
    ensures { result.now ≡ bytes_in bytes.now span }
{
    &bytes[span.from as usize..span.to as usize]
}

/// Whether the ranges of an exchange lie in the bytes of its links.
fn ranges_lie(clients: &Clients<'_>, conns: &Conns<'_>, s: Served, c: Carried) -> bool
    ensures { IsTrue result ↔ Ranges clients.now conns.now s c }
{
    lies_in(s.ask, clients.took(s.worker, s.session))
        && lies_in(c.sent, conns.sent(c.server, c.id))
        && lies_in(c.took, conns.took(c.server, c.id))
        && lies_in(s.gave, clients.gave(s.worker, s.session))
}

fn ask_of<'a>(clients: &Clients<'a>, s: Served) -> &'a [u8]
    requires { LiesIn s.ask (client_took clients.now s.worker s.session) }
    ensures { result.now ≡ ask_bytes clients.now s }
{
    part(clients.took(s.worker, s.session), s.ask)
}

fn gave_of<'a>(clients: &Clients<'a>, s: Served) -> &'a [u8]
    requires { LiesIn s.gave (client_gave clients.now s.worker s.session) }
    ensures { result.now ≡ gave_bytes clients.now s }
{
    part(clients.gave(s.worker, s.session), s.gave)
}

fn sent_of<'a>(conns: &Conns<'a>, c: Carried) -> &'a [u8]
    requires { LiesIn c.sent (conn_sent conns.now c.server c.id) }
    ensures { result.now ≡ sent_bytes conns.now c }
{
    part(conns.sent(c.server, c.id), c.sent)
}

fn took_of<'a>(conns: &Conns<'a>, c: Carried) -> &'a [u8]
    requires { LiesIn c.took (conn_took conns.now c.server c.id) }
    ensures { result.now ≡ took_bytes conns.now c }
{
    part(conns.took(c.server, c.id), c.took)
}

fn passed_holds(clients: &Clients<'_>, conns: &Conns<'_>, s: Served, c: Carried) -> bool
    ensures { IsTrue result ↔ KindHolds clients.now conns.now s (kind.Passed c) }
{
    if !ranges_lie(clients, conns, s, c) {
        return false;
    }
    let (ask, gave) = (ask_of(clients, s), gave_of(clients, s));
    pass_holds(c.closing, ask, sent_of(conns, c), took_of(conns, c), gave)
}

fn was_cut_holds(
    clients: &Clients<'_>,
    conns: &Conns<'_>,
    s: Served,
    c: Carried,
    why: CutCause,
) -> bool
    ensures { IsTrue result ↔ KindHolds clients.now conns.now s (kind.Cut c why) }
{
    if !ranges_lie(clients, conns, s, c) {
        return false;
    }
    let (ask, gave) = (ask_of(clients, s), gave_of(clients, s));
    cut_holds(c.closing, ask, sent_of(conns, c), took_of(conns, c), gave)
}

fn answered_holds(clients: &Clients<'_>, conns: &Conns<'_>, s: Served, status: u16) -> bool
    ensures { IsTrue result ↔ KindHolds clients.now conns.now s (kind.Own status) }
{
    if !lies_in(s.ask, clients.took(s.worker, s.session)) {
        return false;
    }
    if !lies_in(s.gave, clients.gave(s.worker, s.session)) {
        return false;
    }
    own_holds(status, gave_of(clients, s))
}

fn served_holds(clients: &Clients<'_>, conns: &Conns<'_>, s: Served) -> bool
    ensures { IsTrue result ↔ KindHolds clients.now conns.now s s.kind }
{
    match s.kind {
        Kind::Passed(carried) => passed_holds(clients, conns, s, carried),
        Kind::Cut(carried, why) => was_cut_holds(clients, conns, s, carried, why),
        Kind::Own(status) => answered_holds(clients, conns, s, status),
    }
}

fn record_holds(clients: &Clients<'_>, conns: &Conns<'_>, told: Told) -> bool
    ensures { IsTrue result ↔ RecordHolds clients.now conns.now told }
{
    match told {
        Told::Served(s) => served_holds(clients, conns, s),
        Told::Left(x) => lies_in(x.ask, clients.took(x.worker, x.session)),
    }
}

/// The first record that is not true of its bytes.
pub(crate) fn first_false(
    clients: &Clients<'_>,
    conns: &Conns<'_>,
    records: &[Told],
) -> Option<usize>
    ensures { MatchOption result (HoldsOfEach (RecordIn clients.now conns.now) records.now)
        (λ k. FailsFirst (RecordIn clients.now conns.now) records.now k) }
{
    for (k, told) in records.iter().enumerate() {
        if !record_holds(clients, conns, *told) {
            return Some(k);
        }
    }
    None
}
