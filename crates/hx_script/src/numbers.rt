//! The numbers of a transcript fit, since its types say so. Each function is there for its clause.
ghost use Rattle.std.specs.Prelude.{[], ◌∷◌, All};
ghost use Rattle.hx_script.specs.Numbers.{IsNumber, IsByte, IsLimit, mark_numbers, rule_numbers, HasServerNumbers, told_numbers, HasClientNumbers, HasConnNumbers, total_numbers, HasNumbers};

use crate::transcript::{ServerPart, Transcript};
use hx_base::{ConnId, PoolRules, SessionNo, ThreadNo, Totals};
use hx_pool::Entry;
use hx_record::{ClientBytes, ConnBytes, Kind, Told};

fn mark_fits(mark: Entry)
    ensures { All IsNumber (mark_numbers mark) }
{
    match mark {
        Entry::Open { .. } => {}
        _ => {}
    }
}

fn marks_fit(marks: &[Entry])
    ensures { All (λ e. All IsNumber (mark_numbers e)) marks.now }
{
    for mark in marks {
        mark_fits(*mark);
    }
}

fn rules_fit(rules: PoolRules)
    ensures max { IsLimit rules.max }
    ensures rules { All IsNumber (rule_numbers rules) }
{
    match rules.max {
        Some(_) => {}
        None => {}
    }
}

fn server_fits(part: &ServerPart)
    ensures { HasServerNumbers part.now }
{
    rules_fit(part.rules);
    marks_fit(part.marks.as_slice());
}

fn servers_fit(servers: &[ServerPart])
    ensures { All HasServerNumbers servers.now }
{
    for part in servers {
        server_fits(part);
    }
}

fn record_fits(told: Told)
    ensures { All IsNumber (told_numbers told) }
{
    match told {
        Told::Served(s) => match s.kind {
            Kind::Passed(_) => {}
            Kind::Cut(_, _) => {}
            Kind::Own(_) => {}
        },
        Told::Left(_) => {}
    }
}

fn records_fit(records: &[Told])
    ensures { All (λ r. All IsNumber (told_numbers r)) records.now }
{
    for told in records {
        record_fits(*told);
    }
}

fn byte_fits(b: u8)
    ensures { IsByte b }
{}

fn bytes_fit(bytes: &[u8])
    ensures { All IsByte bytes.now }
{
    for b in bytes {
        byte_fits(*b);
    }
}

fn who_fits(t: ThreadNo, n: SessionNo)
    ensures { All IsNumber (t.0 ∷ n.0 ∷ []) }
{}

fn client_fits(client: &ClientBytes)
    ensures { HasClientNumbers client.now }
{
    who_fits(client.worker, client.session);
    bytes_fit(client.took.as_slice());
    bytes_fit(client.gave.as_slice());
}

fn clients_fit(clients: &[ClientBytes])
    ensures { All HasClientNumbers clients.now }
{
    for client in clients {
        client_fits(client);
    }
}

fn id_fits(id: ConnId)
    ensures { IsNumber id.0 }
{}

fn conn_fits(conn: &ConnBytes)
    ensures { HasConnNumbers conn.now }
{
    id_fits(conn.id);
    bytes_fit(conn.sent.as_slice());
    bytes_fit(conn.took.as_slice());
}

fn conns_fit(conns: &[ConnBytes])
    ensures { All HasConnNumbers conns.now }
{
    for conn in conns {
        conn_fits(conn);
    }
}

fn sums_fit(totals: Totals)
    ensures { All IsNumber (total_numbers totals) }
{}

fn totals_fit(totals: &[Totals])
    ensures { All (λ s. All IsNumber (total_numbers s)) totals.now }
{
    for sums in totals {
        sums_fit(*sums);
    }
}

/// Each number of a transcript fits 64 bits, and each byte 8.
pub fn numbers_fit(t: &Transcript)
    ensures { HasNumbers t.now }
{
    servers_fit(t.servers.as_slice());
    records_fit(t.records.as_slice());
    clients_fit(t.clients.as_slice());
    conns_fit(t.conns.as_slice());
    totals_fit(t.totals.as_slice());
}
