//! A net in memory, whose links follow plans.
ghost use Rattle.std.specs.Prelude.{◌≡◌, ◌≤◌, true, All, map, ◌++◌, ◌∷◌, []};
ghost use Rattle.std.specs.Prelude.{IfOk, OnOk, OnErr, IfSome, MatchResult};
ghost use Rattle.hx_link.specs.Nets.{with_more};
ghost use Rattle.hx_link.specs.MemoryLinks.{state_of, with_loop};
ghost use Rattle.hx_link.specs.MemoryNets.{new_net, IsPlan, next_plan, without_next, DialsPlan, told_result};
ghost use Rattle.hx_link.specs.MemoryNets.{MemoryDials, MemoryAttaches, MemoryBuries, TellsLinks, TellsCourse};
ghost use Rattle.hx_link.specs.MemoryNets.{attach_fails, after_attach};
ghost use Rattle.hx_link.specs.DialNotes.{where_told, note_told};

use crate::memory_link::MemoryLink;
use crate::net::{Net, NetFault};
use crate::next_plan::find_plan;
use hx_base::{Address, ConnId, Millis, NoMemory, Plan, ServerNo, ThreadNo};
use std::alloc::Global;
use std::marker::Model;

/// What is kept of a dial.
#[derive(Clone, Copy)]
pub struct DialNote {
    pub server: ServerNo,
    pub id: ConnId,
    pub answered: bool,
    /// The tag of the link that it gave.
    pub tag: Option<u32>,
}

/// Dials links of its plans, each server's in order, and keeps those that are buried.
#[derive(Drop)]
pub struct MemoryNet {
    /// Those that are left.
    plans: Vec<Plan>,
    thread: ThreadNo,
    faults: u64,
    dials: Vec<DialNote>,
    buried: Vec<MemoryLink>,
    /// Each dial and each burial was noted.
    telling: bool,
    /// Which attach fails, counted from the next one.
    failing: Option<u64>,
    starved: bool,
}

impl Model for MemoryNet {
    ghost use Rattle.hx_link.specs.MemoryNets.{MemoryNetNow};

    ghost Value = { MemoryNetNow };

    ghost use Rattle.hx_link.specs.MemoryNetView.{net_view, IsNet};

    ghost view = { net_view };

    ghost invariant = { IsNet };
}

impl MemoryNet {
    /// Reserves room to bury so many links. Its loop is that of thread 0.
    ///
    /// # Errors
    /// `NoMemory` for want of memory.
    pub fn new(alloc: Global, plans: Vec<Plan>, room: usize) -> Result<MemoryNet, NoMemory>
        requires plans { All IsPlan plans.items }
        ensures begins { IfOk result (λ net. net ≡ new_net plans.items room) }
    {
        let buried = Vec::with_capacity(alloc, room)?;
        Ok(MemoryNet {
            plans,
            thread: ThreadNo(0),
            faults: 0,
            dials: Vec::new(alloc),
            buried,
            telling: true,
            failing: None,
            starved: false,
        })
    }

    /// From now on its loop is that of this thread.
    pub fn turn_to(&mut self, thread: ThreadNo)
        ensures { self.new ≡ record self.old { state = record self.old.state { loop_no = thread.0 } } }
    {
        self.thread = thread;
    }

    /// Lets the k-th attach from now on fail, and no other.
    pub fn fail_attach(&mut self, k: u64)
        requires { 1 ≤ k }
        ensures { self.new ≡ record self.old { state = record self.old.state { course = Some (record { plans = self.old.plans; failing = Some k }) }; failing = Some k } }
    {
        self.failing = Some(k);
    }

    /// Whether a buried link was starved, or a dial or a burial found no memory to be noted.
    pub fn starved(&self) -> bool
        ensures starved { result ≡ self.now.starved }
        ensures links { TellsLinks self.now }
        ensures course { TellsCourse self.now }
    {
        self.starved
    }

    /// The links that it keeps, in the order of their burials.
    pub fn into_buried(self) -> Vec<MemoryLink>
        ensures links { IfSome self.links (λ links. result.items ≡ links) }
        ensures told { TellsLinks self }
    {
        self.buried
    }
}

/// Takes the server's next plan.
fn take_plan(plans: &mut Vec<Plan>, server: ServerNo) -> Option<Plan>
    requires plans { All IsPlan plans.old.items }
    ensures next { result ≡ next_plan server plans.old.items }
    ensures left { plans.new.items ≡ without_next server plans.old.items }
    ensures plans { All IsPlan plans.new.items }
    ensures plan { IfSome result IsPlan }
{
    match find_plan(plans.as_slice(), server) {
        Some(i) => Some(plans.remove(i)),
        None => None,
    }
}

/// The link of a plan, where there is one that doesn't refuse.
fn dial_plan(plan: Option<Plan>, server: ServerNo, id: ConnId) -> Option<MemoryLink>
    requires { IfSome plan IsPlan }
    ensures { DialsPlan server id plan result }
{
    match plan {
        Some(plan) if !plan.refuse => Some(MemoryLink::dialled(plan, server, id)),
        _ => None,
    }
}

/// What is kept of the dial that gave this link, or none.
fn note_of(link: &Option<MemoryLink>, server: ServerNo, id: ConnId) -> DialNote
    ensures { note_told result ≡ told_result server id link.now }
{
    let (answered, tag) = match link {
        Some(link) => (true, Some(link.tag())),
        None => (false, None),
    };
    DialNote {
        server,
        id,
        answered,
        tag,
    }
}

/// Keeps a note of a dial. A net that tells no dials needs none.
///
/// # Errors
/// `NoMemory` for want of memory.
fn keep_note(dials: &mut Vec<DialNote>, telling: bool, note: DialNote) -> Result<(), NoMemory>
    ensures kept { OnOk result (with_more (note_told note)
        (where_told telling (map note_told dials.old.items))
        ≡ where_told telling (map note_told dials.new.items)) }
    ensures telling { OnErr result (telling ≡ true) }
{
    if telling {
        dials.push(note)?;
    }
    Ok(())
}

impl Net for MemoryNet {
    ghost use Rattle.hx_link.specs.Nets.{NetDials, NetAttaches, NetDetaches, NetBuries};
    ghost use Rattle.hx_link.specs.MemoryLinks.{MemoryLinkNow};

    type L = MemoryLink;

    ghost state = { λ m. m.state };

    fn loop_no(&self) -> ThreadNo {
        self.thread
    }

    fn dial(
        &mut self,
        server: ServerNo,
        _address: &Address,
        id: ConnId,
        _now: Millis,
    ) -> Result<MemoryLink, NetFault>
        ensures dials { NetDials state_of self.old.state self.new.state server id result }
        ensures answers { MemoryDials self.old self.new server id result }
    {
        let plan = take_plan(&mut self.plans, server);
        let link = dial_plan(plan, server, id);
        let note = note_of(&link, server, id);
        if keep_note(&mut self.dials, self.telling, note).is_err() {
            self.telling = false;
            self.starved = true;
            self.faults = self.faults.saturating_add(1);
            return Err(NetFault);
        }
        match link {
            Some(link) => Ok(link),
            None => {
                self.faults = self.faults.saturating_add(1);
                Err(NetFault)
            }
        }
    }

    fn attach(&mut self, link: &mut MemoryLink) -> Result<(), NetFault>
        requires free { link.old.state.on_loop ≡ None }
        ensures attaches { NetAttaches self.old.state self.new.state link.old.state link.new.state
            result }
        ensures answers { MemoryAttaches self.old self.new result }
        ensures link { MatchResult result
            (λ _. link.new ≡ with_loop (Some self.old.state.loop_no) link.old)
            (λ _. link.new ≡ link.old) }
    {
        let fails = is_next(self.failing);
        self.failing = count_down(self.failing);
        if fails {
            self.faults = self.faults.saturating_add(1);
            return Err(NetFault);
        }
        link.set_loop(Some(self.thread));
        Ok(())
    }

    fn detach(&mut self, link: &mut MemoryLink)
        ensures detaches { NetDetaches self.old.state self.new.state link.old.state
            link.new.state }
        ensures link { link.new ≡ with_loop None link.old }
        ensures same { self.new ≡ self.old }
    {
        link.set_loop(None);
    }

    fn bury(&mut self, link: MemoryLink)
        ensures buries { NetBuries self.old.state self.new.state link.state }
        ensures keeps { MemoryBuries self.old self.new link }
    {
        let starved = link.starved();
        if self.buried.push(link).is_err() {
            self.telling = false;
            self.starved = true;
        }
        self.starved = self.starved || starved;
    }

    /// Waits for nothing.
    fn pause(&mut self, _limit: Millis)
        ensures same { self.new ≡ self.old }
    {}
}

/// Whether the next attach fails.
fn is_next(failing: Option<u64>) -> bool
    ensures { result ≡ attach_fails failing }
{
    match failing {
        None => false,
        Some(k) => k == 1,
    }
}

/// Which attach fails once one more was made.
fn count_down(failing: Option<u64>) -> Option<u64>
    ensures { result ≡ after_attach failing }
{
    match failing {
        Some(k) if k != 1 => Some(k.saturating_sub(1)),
        _ => None,
    }
}
