//! Links begin and end.
ghost use Rattle.std.specs.Prelude.{◌≡◌, Ok, None, Some};
ghost use Rattle.hx_script_parts.specs.Faults.{Gives};
ghost use Rattle.hx_script_parts.specs.Reading as reading;

use crate::fault::{Refusal, Rule};
use crate::moments::Moments;
use crate::reading::{OpenLink, Owner, Reading};
use crate::script::ClientLine;
use crate::words::unless_broken;
use hx_base::{Millis, ServerNo};
use hx_config_parts::Growing;
use hx_link::Plan;
use std::alloc::Global;

/// A link before its lines.
pub fn empty_link(alloc: Global, line: u32, owner: Owner) -> OpenLink
    ensures { result ≡ reading.empty_link line owner }
{
    OpenLink {
        line,
        owner,
        pieces: Growing::new(alloc),
        end: None,
        room: None,
        fail: None,
        latest: Millis(0),
    }
}

fn plan_of(server: Option<ServerNo>, refuse: bool, link: OpenLink) -> Plan
    ensures { result ≡ reading.plan_of server refuse link }
{
    Plan {
        line: link.line,
        server,
        refuse,
        pieces: link.pieces.into_items(),
        end: link.end,
        room: link.room,
        fail: link.fail,
    }
}

fn is_refused(owner: Owner) -> bool
    ensures { result ≡ reading.is_refused owner }
{
    match owner {
        Owner::Client { .. } => false,
        Owner::Server { refuse, .. } => refuse,
    }
}

impl Reading {
    /// Nothing yet. It takes no memory.
    pub fn new(alloc: Global) -> Reading
        ensures { result ≡ reading.nothing_read }
    {
        Reading {
            clients: Growing::new(alloc),
            plans: Growing::new(alloc),
            current: None,
            orders: Growing::new(alloc),
            moments: Moments::new(alloc),
        }
    }

    /// The allocator of its lists.
    pub fn allocator(&self) -> Global {
        self.clients.allocator()
    }

    fn keep(&mut self, link: OpenLink) -> Result<(), Refusal>
        ensures { Gives (λ _. self.new) result (Ok (reading.with_plan link.owner link self.old)) }
    {
        match link.owner {
            Owner::Client {
                front,
                worker,
                moment,
            } => self.clients.push(ClientLine {
                front,
                worker,
                moment,
                plan: plan_of(None, false, link),
            })?,
            Owner::Server { server, refuse } => {
                self.plans.push(plan_of(Some(server), refuse, link))?;
            }
        }
        Ok(())
    }

    /// The open link is over.
    pub fn close(&mut self) -> Result<(), Refusal>
        ensures { Gives (λ _. self.new) result (Ok (reading.closed self.old)) }
    {
        match self.current.take() {
            None => Ok(()),
            Some(link) => self.keep(link),
        }
    }

    /// Another link is open.
    pub fn begin(&mut self, line: u32, owner: Owner)
        ensures { self.new ≡ reading.with_link (reading.empty_link line owner) self.old }
    {
        self.current = Some(empty_link(self.allocator(), line, owner));
    }

    /// Takes the open link, whose dial must not fail.
    pub fn take_link(&mut self) -> Result<OpenLink, Refusal>
        ensures link { Gives (λ l. l) result (reading.link_of self.old.current) }
        ensures taken { self.new ≡ record self.old { current = None } }
    {
        let Some(link) = self.current.take() else {
            return Err(Refusal::Fault(Rule::WrongPlace));
        };
        if is_refused(link.owner) {
            return Err(Refusal::Fault(Rule::WrongPlace));
        }
        Ok(link)
    }

    /// The same, where it goes on at the moment.
    pub fn take_link_at(&mut self, at: Millis) -> Result<OpenLink, Refusal>
        ensures link { Gives (λ l. l) result (reading.link_at at self.old.current) }
        ensures taken { self.new ≡ record self.old { current = None } }
    {
        let link = self.take_link()?;
        unless_broken(link.end.is_some(), Rule::WrongPlace)?;
        unless_broken(at.0 < link.latest.0, Rule::MomentFalls)?;
        Ok(link)
    }
}
