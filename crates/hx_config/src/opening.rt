//! Sections begin and end.
ghost use Rattle.std.specs.Prelude.{◌≡◌, ℕ, map, Ok, IfOk, IfErr, length, bytes_eq};
ghost use Rattle.std.specs.List.{list_any};
ghost use Rattle.hx_config_parts.specs.declared.fault.Refusal.TheVariants.{Memory};
ghost use Rattle.hx_config_parts.specs.Faults.{Gives};
ghost use Rattle.hx_config.specs.Sections as section;

use crate::parts::{Back, Server};
use crate::reading::Reading;
use crate::sections::{Backend, Frontend, Kind, Section, Values};
use hx_base::{Items, Millis, Mode, Name, PoolRules};
use hx_config_parts::{Growing, Refusal, same};
use std::alloc::Global;
use std::mem;

fn usual_rules() -> PoolRules
    ensures { result ≡ section.usual_rules }
{
    PoolRules {
        mode: Mode::Safe,
        max: None,
        low: 0,
        delay: Millis(5000),
    }
}

/// The values before any line.
pub fn usual_values() -> Values
    ensures { result ≡ section.usual_values }
{
    Values {
        rules: usual_rules(),
        back: None,
        connect: None,
        server: None,
        client: None,
        keep_alive: None,
    }
}

/// A name of its own.
pub fn copy_name(alloc: Global, name: &[u8]) -> Result<Name, Refusal>
    ensures { Gives (λ n. n) result (Ok name.now) }
{
    Ok(Items::from_vec(Vec::from_slice(alloc, name)?))
}

fn copy_back(alloc: Global, back: &Option<Name>) -> Result<Option<Name>, Refusal>
    ensures { Gives (λ n. n) result (Ok back.now) }
{
    match back {
        None => Ok(None),
        Some(name) => Ok(Some(copy_name(alloc, name.as_slice())?)),
    }
}

fn copy_values(alloc: Global, values: &Values) -> Result<Values, Refusal>
    ensures { Gives (λ v. v) result (Ok values.now) }
{
    Ok(Values {
        rules: values.rules,
        back: copy_back(alloc, &values.back)?,
        connect: values.connect,
        server: values.server,
        client: values.client,
        keep_alive: values.keep_alive,
    })
}

fn set_modes(servers: &mut [Server], mode: Mode)
    ensures { servers.new ≡ map (section.with_mode mode) servers.old }
{
    for server in servers.iter_mut() {
        server.rules.mode = mode;
    }
}

fn front_of(part: Section) -> Frontend
    ensures { result ≡ section.front_of part }
{
    Frontend {
        line: part.line,
        name: part.name,
        binds: part.binds,
        wants: part.values.back,
        client: part.values.client,
        keep_alive: part.values.keep_alive,
    }
}

fn back_of(part: Section) -> Backend
    ensures { result ≡ section.back_of part }
{
    let mut servers = part.servers.into_vec();
    set_modes(&mut servers, part.values.rules.mode);
    Backend {
        line: part.line,
        back: Back {
            name: part.name,
            servers: Items::from_vec(servers),
            connect: part.values.connect,
            server: part.values.server,
        },
    }
}

fn both_of(alloc: Global, part: Section) -> Result<(Frontend, Backend), Refusal>
    ensures { Gives (λ x. x) result (Ok (section.front_of part, section.back_of part)) }
{
    let name_of_front = copy_name(alloc, part.name.as_slice())?;
    let Section {
        kind: _,
        line,
        name,
        values,
        binds,
        servers,
    } = part;
    let mut servers = servers.into_vec();
    set_modes(&mut servers, values.rules.mode);
    let back = Backend {
        line,
        back: Back {
            name,
            servers: Items::from_vec(servers),
            connect: values.connect,
            server: values.server,
        },
    };
    let front = Frontend {
        line,
        name: name_of_front,
        binds,
        wants: values.back,
        client: values.client,
        keep_alive: values.keep_alive,
    };
    Ok((front, back))
}

/// A section without lines of its own.
pub fn empty_section(alloc: Global, kind: Kind, line: u32, name: Name, values: Values) -> Section
    ensures { result ≡ section.empty_section kind line name values }
{
    Section {
        kind,
        line,
        name,
        values,
        binds: Growing::new(alloc),
        servers: Growing::new(alloc),
    }
}

/// The open section before the first one.
pub fn nowhere(alloc: Global) -> Section
    ensures { result ≡ section.nowhere }
{
    let name = Items::from_vec(Vec::new(alloc));
    empty_section(alloc, Kind::Nowhere, 0, name, usual_values())
}

/// The values with which a section begins.
pub fn first_values(
    alloc: Global,
    kind: Kind,
    name: &[u8],
    values: &Values,
) -> Result<Values, Refusal>
    ensures { Gives (λ v. v) result (Ok (section.first_values kind name.now values.now)) }
{
    let mut first = copy_values(alloc, values)?;
    if let Kind::Listen = kind {
        first.back = Some(copy_name(alloc, name)?);
    }
    Ok(first)
}

impl Reading {
    /// Nothing yet. It takes no memory.
    pub fn new(alloc: Global) -> Reading
        ensures { result ≡ section.nothing_read }
    {
        Reading {
            threads: 1,
            defaults: usual_values(),
            current: nowhere(alloc),
            fronts: Growing::new(alloc),
            backs: Growing::new(alloc),
            servers: 0,
            passed_over: Growing::new(alloc),
        }
    }

    fn end(&mut self, alloc: Global, part: Section) -> Result<(), Refusal>
        ensures { Gives (λ _. self.new) result (Ok (section.ended part self.old)) }
    {
        match part.kind {
            Kind::Nowhere | Kind::Global => {}
            Kind::Defaults => self.defaults = part.values,
            Kind::Frontend => self.fronts.push(front_of(part))?,
            Kind::Backend => self.backs.push(back_of(part))?,
            Kind::Listen => {
                let (front, back) = both_of(alloc, part)?;
                self.fronts.push(front)?;
                self.backs.push(back)?;
            }
        }
        Ok(())
    }

    /// The open section ends.
    pub fn close(&mut self, alloc: Global) -> Result<(), Refusal>
        ensures { Gives (λ _. self.new) result (Ok (section.closed self.old)) }
    {
        let part = mem::replace(&mut self.current, nowhere(alloc));
        self.end(alloc, part)
    }

    fn has_front_named(&self, name: &[u8]) -> bool
        ensures { result ≡ section.has_front_named name.now self.now.fronts }
    {
        self.fronts
            .as_slice()
            .iter()
            .any(|f| same(f.name.as_slice(), name))
    }

    fn has_back_named(&self, name: &[u8]) -> bool
        ensures { result ≡ section.has_back_named name.now self.now.backs }
    {
        self.backs
            .as_slice()
            .iter()
            .any(|b| same(b.back.name.as_slice(), name))
    }

    /// Whether a section of this kind may not have the name.
    pub fn is_double(&self, kind: Kind, name: &[u8]) -> bool
        ensures { result ≡ section.is_double kind name.now self.now }
    {
        (kind.has_front() && self.has_front_named(name))
            || (kind.has_back() && self.has_back_named(name))
    }

    /// Whether one more section of this kind would go past the limit.
    pub fn is_full(&self, kind: Kind) -> bool
        ensures { result ≡ section.is_full kind self.now }
    {
        (kind.has_front() && 16 <= self.fronts.len()) || (kind.has_back() && 16 <= self.backs.len())
    }
}
