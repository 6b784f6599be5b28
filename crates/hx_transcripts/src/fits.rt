//! The numbers of a transcript of a program are as large as its types hold. Each function is there for its clause.
ghost use Rattle.std.specs.Prelude.{◌≤◌, All};
ghost use Rattle.hx_script.specs.Numbers.{IsByte};
ghost use Rattle.hx_transcripts_parts.specs.MarkLaws.{FitsMark, FitsMax, FitsRules};
ghost use Rattle.hx_transcripts_parts.specs.Numbers.{most_16, most_64};
ghost use Rattle.hx_transcripts_parts.specs.ReadBack.{FitsWho, FitsPlace, FitsSpan};
ghost use Rattle.hx_transcripts_parts.specs.RecordLaws.{FitsCarried, FitsKind, FitsTold, FitsTotals};
ghost use Rattle.hx_transcripts.specs.Fits.{FitsServer, FitsClient, FitsConnBytes, Fits};

use hx_base::{ConnId, PlaceNo, PoolRules, ServerNo, SessionNo, Span, ThreadNo, Totals};
use hx_pool::Entry;
use hx_script::{Carried, ClientBytes, ConnBytes, Kind, ServerPart, Told, Transcript};

fn who_fits(t: ThreadNo, n: SessionNo)
    ensures { FitsWho (t, n) }
{}

fn place_fits(place: PlaceNo)
    ensures { FitsPlace place }
{}

fn span_fits(span: Span)
    ensures { FitsSpan span }
{}

fn id_fits(id: ConnId)
    ensures { id.0 ≤ most_64 }
{}

fn server_no_fits(server: ServerNo)
    ensures { server.0 ≤ most_16 }
{}

fn mark_fits(mark: Entry)
    ensures { FitsMark mark }
{
    match mark {
        Entry::Open { t, n, id } | Entry::Close { t, n, id } => {
            who_fits(t, n);
            id_fits(id);
        }
        Entry::Park {
            t,
            n,
            id,
            place,
            ..
        }
        | Entry::Take {
            t,
            n,
            id,
            place,
            ..
        } => {
            who_fits(t, n);
            id_fits(id);
            place_fits(place);
        }
        _ => {}
    }
}

fn marks_fit(marks: &[Entry])
    ensures { All FitsMark marks.now }
{
    for mark in marks {
        mark_fits(*mark);
    }
}

fn max_fits(max: Option<u32>)
    ensures { FitsMax max }
{
    match max {
        Some(_) => {}
        None => {}
    }
}

fn rules_fit(rules: PoolRules)
    ensures { FitsRules rules }
{
    max_fits(rules.max);
}

fn server_fits(part: &ServerPart)
    ensures { FitsServer part.now }
{
    rules_fit(part.rules);
    marks_fit(part.marks.as_slice());
}

fn servers_fit(servers: &[ServerPart])
    ensures { All FitsServer servers.now }
{
    for part in servers {
        server_fits(part);
    }
}

fn carried_fits(carried: Carried)
    ensures { FitsCarried carried }
{
    server_no_fits(carried.server);
    id_fits(carried.id);
    span_fits(carried.sent);
    span_fits(carried.took);
}

fn kind_fits(kind: Kind)
    ensures { FitsKind kind }
{
    match kind {
        Kind::Passed(carried) => carried_fits(carried),
        Kind::Cut(carried, _) => carried_fits(carried),
        Kind::Own(_) => {}
    }
}

fn record_fits(told: Told)
    ensures { FitsTold told }
{
    match told {
        Told::Served(s) => {
            who_fits(s.worker, s.session);
            span_fits(s.ask);
            span_fits(s.gave);
            kind_fits(s.kind);
        }
        Told::Left(l) => {
            who_fits(l.worker, l.session);
            span_fits(l.ask);
        }
    }
}

fn records_fit(records: &[Told])
    ensures { All FitsTold records.now }
{
    for told in records {
        record_fits(*told);
    }
}

fn byte_fits(b: u8)
    ensures { IsByte b }
{}

fn bytes_fit(bytes: &[u8])
    ensures { All IsByte bytes.now }
{
    for b in bytes {
        byte_fits(*b);
    }
}

fn client_fits(client: &ClientBytes)
    ensures { FitsClient client.now }
{
    who_fits(client.worker, client.session);
    bytes_fit(client.took.as_slice());
    bytes_fit(client.gave.as_slice());
}

fn clients_fit(clients: &[ClientBytes])
    ensures { All FitsClient clients.now }
{
    for client in clients {
        client_fits(client);
    }
}

fn conn_fits(conn: &ConnBytes)
    ensures { FitsConnBytes conn.now }
{
    server_no_fits(conn.server);
    id_fits(conn.id);
    bytes_fit(conn.sent.as_slice());
    bytes_fit(conn.took.as_slice());
}

fn conns_fit(conns: &[ConnBytes])
    ensures { All FitsConnBytes conns.now }
{
    for conn in conns {
        conn_fits(conn);
    }
}

fn sums_fit(totals: Totals)
    ensures { FitsTotals totals }
{}

fn totals_fit(totals: &[Totals])
    ensures { All FitsTotals totals.now }
{
    for sums in totals {
        sums_fit(*sums);
    }
}

/// Each number and each byte of a transcript is as large as its type holds.
pub fn transcript_fits(t: &Transcript)
    ensures { Fits t.now }
{
    servers_fit(t.servers.as_slice());
    records_fit(t.records.as_slice());
    clients_fit(t.clients.as_slice());
    conns_fit(t.conns.as_slice());
    totals_fit(t.totals.as_slice());
}
