//! A connection that rests.
ghost use Rattle.std.specs.Prelude.{◌≡◌, IfOk, IfErr};
ghost use Rattle.hx_link.specs.Nets.{IsFresh, TellsDial};
ghost use Rattle.hx_conn.specs.Conns.{IsRested};
ghost use Rattle.hx_conn.specs.Steps.{ProbesOk, ProbesDead, BeginsOk, BeginsDead};
ghost use Rattle.hx_conn.specs.Views.{rested_now, KeepsRested};

use crate::busy::Busy;
use crate::causes::{Death, death_by};
use crate::conn::Conn;
use crate::dead::Dead;
use crate::exchange::Exchange;
use hx_base::{ConnId, Face, Faced, Millis, ServerNo};
use hx_link::{Link, Net};
use hx_message::MethodKind;
use std::marker::Model;

/// A connection that rests: only whole exchanges are behind it, it is attached to no loop, and its
/// link never failed.
#[derive(Drop)]
pub struct Rested<L: Link> {
    conn: Conn<L>,
}

impl<L: Link> Model for Rested<L> {
    ghost use Rattle.hx_conn.specs.Conns.{RestedNow};
    ghost use Rattle.hx_conn.specs.Views.{rested_now, KeepsRested};

    ghost Value = { RestedNow };

    ghost view = { λ r. rested_now (L.state r.conn.link) r.conn.id r.conn.server r.conn.uses };

    ghost invariant = { λ r. KeepsRested
        (rested_now (L.state r.conn.link) r.conn.id r.conn.server r.conn.uses) r.conn.sent r.conn.taken };
}

impl<L: Link> Rested<L> {
    /// A connection that was just dialled.
    pub fn first(link: L, id: ConnId, server: ServerNo) -> Rested<L>
        requires fresh { IsFresh (L.state link) }
        requires dial { TellsDial server id (L.state link) }
        ensures { result ≡ record { link = L.state link; id = id; server = server; uses = 0 } }
    {
        Rested {
            conn: Conn {
                link,
                id,
                server,
                uses: 0,
                sent: 0,
                taken: 0,
            },
        }
    }

    /// The connection of this link, which rests.
    pub(crate) fn of(conn: Conn<L>) -> Rested<L>
        requires { KeepsRested (rested_now (L.state conn.link) conn.id conn.server conn.uses)
            conn.sent conn.taken }
        ensures { result ≡ rested_now (L.state conn.link) conn.id conn.server conn.uses }
    {
        Rested { conn }
    }

    /// The server for which it was dialled.
    pub fn server(&self) -> ServerNo
        ensures server { result ≡ self.now.server }
        ensures meaning { IsRested self.now }
    {
        self.conn.server
    }

    /// How many whole exchanges it has carried.
    pub fn uses(&self) -> u16
        ensures uses { result ≡ self.now.uses }
        ensures meaning { IsRested self.now }
    {
        self.conn.uses
    }

    /// Its link, to look at.
    pub fn link(&self) -> &L
        ensures link { L.state result.now ≡ self.now.link }
        ensures meaning { IsRested self.now }
    {
        &self.conn.link
    }

    /// Whether it rests on: one read into one byte has to wait.
    ///
    /// # Errors
    /// `Dead` where the read answered anything else.
    pub fn probe(self, now: Millis) -> Result<Rested<L>, Dead<L>>
        ensures ok { IfOk result (ProbesOk self now.0) }
        ensures dead { IfErr result (λ d. ProbesDead self now.0 (L.state d.link) d.id d.why) }
    {
        let mut conn = self.conn;
        let mut byte = [0; 1];
        let got = conn.link.read(now, &mut byte);
        match death_by(got) {
            None => Ok(Rested::of(conn)),
            Some(cause) => Err(Dead {
                link: conn.link,
                id: conn.id,
                why: cause.code(),
            }),
        }
    }

    /// Attaches it to the net's loop, where an exchange begins.
    ///
    /// # Errors
    /// `Dead` where the net failed.
    pub fn begin<N: Net<L = L>>(self, net: &mut N, method: MethodKind) -> Result<Busy<L>, Dead<L>>
        ensures ok { IfOk result (BeginsOk self method (N.state net.old) (N.state net.new)) }
        ensures dead { IfErr result (λ d. BeginsDead self (N.state net.old) (N.state net.new)
            (L.state d.link) d.id d.why) }
    {
        let mut conn = self.conn;
        match net.attach(&mut conn.link) {
            Ok(()) => Ok(Busy::begun(conn, method)),
            Err(_) => Err(Dead {
                link: conn.link,
                id: conn.id,
                why: Death::AttachFault.code(),
            }),
        }
    }

    /// Its link, for the burial.
    pub fn end(self) -> L
        ensures link { L.state result ≡ self.link }
        ensures meaning { IsRested self }
    {
        self.conn.link
    }
}

impl<L: Link> Faced for Rested<L> {
    ghost use Rattle.hx_conn.specs.WhatTold.{shown};

    ghost shows = { shown };

    fn face(&self) -> Face {
        Face {
            id: self.conn.id,
            uses: self.conn.uses,
        }
    }
}
