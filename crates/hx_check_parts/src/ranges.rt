//! The ranges that records tell of a session.
ghost use Rattle.std.specs.Prelude.{◌≡◌, ℕ, ◌↔◌, [], ◌∷◌, if◌then◌else◌, IsTrue, MatchOption};
ghost use Rattle.hx_base.specs.Spans.{AreContiguous};
ghost use Rattle.hx_record.specs.Tiles.{is_of};
ghost use Rattle.hx_check_parts.specs.Ranges.{range_of, ranges_of};

use hx_base::{SessionNo, Span, ThreadNo};
use hx_record::Told;

/// Which ranges.
#[derive(Clone, Copy)]
pub(crate) enum Side {
    /// What was read of the client, that of the left line among them.
    Ask,
    /// What the client was given.
    Gave,
    /// What was read of the client behind its last request.
    Leaves,
}

fn of_session(
    t: ThreadNo,
    n: SessionNo,
    worker: ThreadNo,
    session: SessionNo,
    range: Span,
) -> Option<Span>
    ensures { result ≡ (if is_of t n worker session then Some range else None) }
{
    if t == worker && n == session {
        Some(range)
    } else {
        None
    }
}

fn range_of(side: Side, t: ThreadNo, n: SessionNo, told: Told) -> Option<Span>
    ensures { MatchOption result (range_of side t n told ≡ []) (λ span. range_of side t n told ≡ span ∷ []) }
{
    match told {
        Told::Served(s) => match side {
            Side::Ask => of_session(t, n, s.worker, s.session, s.ask),
            Side::Gave => of_session(t, n, s.worker, s.session, s.gave),
            Side::Leaves => None,
        },
        Told::Left(l) => match side {
            Side::Ask | Side::Leaves => of_session(t, n, l.worker, l.session, l.ask),
            Side::Gave => None,
        },
    }
}

/// Whether no record tells such a range.
pub(crate) fn tell_none(side: Side, t: ThreadNo, n: SessionNo, records: &[Told]) -> bool
    ensures { IsTrue result ↔ (ranges_of side t n records.now ≡ []) }
{
    for told in records {
        if range_of(side, t, n, *told).is_some() {
            return false;
        }
    }
    true
}

/// Where the ranges end, if they follow each other from the first byte.
pub(crate) fn end_of(side: Side, t: ThreadNo, n: SessionNo, records: &[Told]) -> Option<u64>
    ensures { MatchOption result
        ((to : ℕ) → AreContiguous 0 (ranges_of side t n records.now) to → ⊥)
        (λ end. (to : ℕ) → AreContiguous 0 (ranges_of side t n records.now) to ↔ (end ≡ to)) }
{
    let mut end = 0;
    for told in records {
        if let Some(span) = range_of(side, t, n, *told) {
            if span.from != end || span.to < end {
                return None;
            }
            end = span.to;
        }
    }
    Some(end)
}
