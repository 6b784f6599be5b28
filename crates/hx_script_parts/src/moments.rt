//! Moments in their order.
ghost use Rattle.std.specs.Prelude.{◌≡◌, [], Ok};
ghost use Rattle.hx_script_parts.specs.Faults.{Gives};
ghost use Rattle.hx_script_parts.specs.Reading.{with_moment, as_moments};

use crate::fault::Refusal;
use hx_base::{Items, Millis};
use std::alloc::Global;
use std::collections::BTreeSet;
use std::marker::Model;

/// A set of moments, which contracts see as the list of their milliseconds, each once and rising.
#[derive(Drop)]
pub struct Moments {
    set: BTreeSet<u64>,
}

impl Model for Moments {
    ghost use Rattle.std.specs.Prelude.{List, ℕ};

    ghost Value = { List ℕ };

    ghost view = { λ m. m.set.keys };
}

impl Moments {
    pub fn new(alloc: Global) -> Moments
        ensures { result ≡ [] }
    {
        Moments {
            set: BTreeSet::new(alloc),
        }
    }

    pub fn add(&mut self, moment: Millis) -> Result<(), Refusal>
        ensures { Gives (λ _. self.new) result (Ok (with_moment moment self.old)) }
    {
        self.set.insert(moment.0)?;
        Ok(())
    }

    pub fn into_items(self, alloc: Global) -> Result<Items<Millis>, Refusal>
        ensures { Gives (λ ms. ms) result (Ok (as_moments self)) }
    {
        let moments = self.set.into_iter().map(Millis).collect(alloc)?;
        Ok(Items::from_vec(moments))
    }
}
