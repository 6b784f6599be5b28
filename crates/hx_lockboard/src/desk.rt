//! A seat's token at its board. While it has the value it notes entries.
ghost use Rattle.std.specs.Prelude.{◌≡◌, [], ◌++◌, true, false, Some};

use crate::rule::{Adds, Get, HELD, Hear, NOTED, OneValue, Return, Says, Tell};
use atomic_table::{Seat, Shared};
use hx_base::Faced;
use hx_pool::{BoardTerms, Entry};
use hx_resting::{Desk, Rows, View};
use std::marker::{Brand, Model};
use std::sync::Wait;

#[derive(Drop)]
pub(crate) struct LockDesk<'a, V: Faced> {
    shared: &'a Shared<Option<Rows<V>>, View, BoardTerms, OneValue>,
    token: Seat<Option<Rows<V>>, View>,
}

impl<'a, V: Faced> Model for LockDesk<'a, V> {
    ghost use Rattle.std.specs.Prelude.{◌≡◌};
    ghost use Rattle.hx_resting.specs.declared.roles.Role.TheVariants.{Works};
    ghost use Rattle.hx_resting.specs.Desks.{DeskView};
    ghost use Rattle.hx_lockboard.specs.LockDesks.{carried_of};

    ghost Value = { DeskView };

    ghost view = { λ d. record { board = d.token.table_id; view = d.token.me.0 } };

    ghost invariant = { λ d. (d.token.table_id ≡ d.shared.now.table_id)
        × (d.shared.now.table_id.words ≡ 2) × (d.shared.now.table_id.slots ≡ 1)
        × (d.shared.now.key ≡ d.token.me.0.terms) × (d.token.me.0.role ≡ Works)
        × (d.token.me.1 ≡ carried_of d.token.me.0.out) };
}

impl<'a, V: Faced> LockDesk<'a, V> {
    ghost use Rattle.hx_lockboard.specs.Rule.{AllBy};
    ghost use Rattle.hx_resting.specs.Rows.{IsAfter};
    ghost use Rattle.hx_lockboard.specs.Views.{worker};
    ghost use Rattle.hx_resting.specs.Desks.{adds_note};
    ghost use Rattle.hx_lockboard.specs.LockDesks.{Gets, given_back, Told};

    pub(crate) fn new(
        shared: &'a Shared<Option<Rows<V>>, View, BoardTerms, OneValue>,
        token: Seat<Option<Rows<V>>, View>,
    ) -> LockDesk<'a, V>
        requires seated { token.table_id ≡ shared.now.table_id }
        requires sized { (shared.now.table_id.words ≡ 2) × (shared.now.table_id.slots ≡ 1) }
        requires works { (t : _) × (token.me ≡ (worker shared.now.key t, [])) }
        ensures { result ≡ record { board = token.table_id; view = token.me.0 } }
    {
        LockDesk { shared, token }
    }

    /// Waits until the value is at home, and gets it.
    pub(crate) fn get<R: Wait>(&mut self, rt: &R) -> Rows<V>
        requires { self.old.view.out ≡ false }
        ensures { Gets V.shows self.old self.new result }
    {
        for _ in rt.forever() {
            let found = self
                .shared
                .compare_exchange::<Get>(&mut self.token, HELD, 0, 1);
            if found == 0 {
                return self.shared.exchange(&mut self.token, 0, None).unwrap();
            }
        }
        unreachable!()
    }

    /// Gives the value back, and lets the entries stand in the history.
    pub(crate) fn give(&mut self, rows: Rows<V>)
        requires out { self.old.view.out ≡ true }
        requires after { IsAfter V.shows self.old.view.terms
            (self.old.view.seen ++ self.old.view.noted) rows }
        requires own { AllBy self.old.view.thread self.old.view.noted }
        ensures { self.new ≡ given_back self.old }
    {
        match self.shared.exchange(&mut self.token, 0, Some(rows)) {
            None => {}
            Some(_) => unreachable!(),
        }
        self.shared.store::<Return>(&mut self.token, HELD, 0);
    }

    fn add<W: Says, T>(&mut self, _entry: Entry, _beside: &T)
        requires { self.old.view.out ≡ true }
        ensures { self.new ≡ adds_note self.old W.note }
    {
        self.shared.fetch_add::<Adds<W>>(&mut self.token, NOTED, 1);
    }

    /// Beside a Park stands what the value's link tells.
    pub(crate) fn write_park(&mut self, entry: Entry, v: &V)
        requires { self.old.view.out ≡ true }
        ensures { self.new ≡ adds_note self.old
            (record { entry = entry; what = Some (V.shows v.now).what }) }
    {
        self.add::<Brand, V>(entry, v);
    }

    /// From now on the other has seen what this one has seen.
    pub(crate) fn tell(&mut self, other: &mut Self)
        requires board { self.old.board ≡ other.old.board }
        requires home { (self.old.view.out ≡ false) × (other.old.view.out ≡ false) }
        ensures told { Told self.old other.old other.new }
        ensures same { self.new ≡ self.old }
    {
        let copy = self.shared.split_seat::<Tell>(&mut self.token);
        other.shared.join_seat::<Tell>(&mut other.token, copy);
        other.shared.load::<Hear>(&mut other.token, HELD);
    }
}

impl<'a, V: Faced> Desk for LockDesk<'a, V> {
    ghost page = { λ d. d };

    fn write(&mut self, entry: Entry) {
        self.add::<Brand, ()>(entry, &());
    }
}
