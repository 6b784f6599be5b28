//! The third rule: no more connections rest than may.
ghost use Rattle.std.specs.Prelude.{◌≡◌, ◌≤◌, ◌<◌, ◌+◌, ◌-◌, ◌^◌, ℕ, ◌↔◌, IsTrue, IfSome, MatchOption, length};
ghost use Rattle.hx_check_parts.specs.Each.{HoldsOfEach, FailsFirst};
ghost use Rattle.hx_check_parts.specs.Marks.{MarkTable, marked, no_marks, IsWithin, IsWithinAt};
ghost use Rattle.hx_check_parts.specs.Last.{CountsRests, AreFew};

use hx_base::{PlaceNo, PoolRules};
use hx_pool::Entry;

/// How many connections rest, in each row and in all.
#[derive(Drop)]
struct Rests {
    rows: [u64; 256],
    all: u64,
}

/// Nothing rests.
fn no_rests() -> Rests
    ensures none { CountsRests no_marks result.rows result.all }
    ensures few { AreFew 1 result.rows result.all }
{
    Rests {
        rows: [0; 256],
        all: 0,
    }
}

/// The most connections of a row.
const MOST_IN_ROW: u64 = 64;

fn is_below(max: Option<u32>, all: u64) -> bool
    requires { all < 2 ^ 64 - 1 }
    ensures { IsTrue result ↔ IfSome max (λ m. all + 1 ≤ m) }
{
    match max {
        None => true,
        Some(most) => all + 1 <= u64::from(most),
    }
}

impl Rests {
    /// Whether so many may rest after the mark.
    fn lets(&self, rules: PoolRules, mark: Entry) -> bool
        requires { AreFew (2 ^ 64 - 1) self.now.rows self.now.all }
        ensures { (T : MarkTable) → CountsRests T self.now.rows self.now.all → IsTrue result ↔ IsWithin rules T mark }
    {
        match mark {
            Entry::Park { place, .. } => {
                is_below(rules.max, self.all) && self.rows[place.row as usize] < MOST_IN_ROW
            }
            _ => true,
        }
    }

    /// Counts the mark.
    fn count(&mut self, mark: Entry)
        requires { AreFew (2 ^ 64 - 1) self.old.rows self.old.all }
        ensures tells { (T : MarkTable) → CountsRests T self.old.rows self.old.all
            → CountsRests (marked T mark) self.new.rows self.new.all }
        ensures grows { (n : ℕ) → AreFew n self.old.rows self.old.all → AreFew (n + 1) self.new.rows self.new.all }
    {
        match mark {
            Entry::Park { place, .. } => {
                self.rows[place.row as usize] += 1;
                self.all += 1;
            }
            Entry::Take { place, .. } => {
                let row = place.row as usize;
                self.rows[row] = self.rows[row].saturating_sub(1);
                self.all = self.all.saturating_sub(1);
            }
            _ => {}
        }
    }
}

/// The first park after which more rest than may.
pub fn first_past_limit(rules: PoolRules, marks: &[Entry]) -> Option<usize>
    ensures { MatchOption result (HoldsOfEach (IsWithinAt rules marks.now) marks.now)
        (λ k. FailsFirst (IsWithinAt rules marks.now) marks.now k) }
{
    let mut rests = no_rests();
    for (k, mark) in marks.iter().enumerate() {
        if !rests.lets(rules, *mark) {
            return Some(k);
        }
        rests.count(*mark);
    }
    None
}
