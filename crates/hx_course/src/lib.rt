//! What a worker's calls keep, over a whole course of them, of what its sessions told. Laws, whose calls do nothing.
#![tactic(auto)]

ghost use Rattle.hx_course.specs.Laws.{CoursesBegin, AdmitsKeep, TurnedKeep, StepsKeep, StopsKeep, TicksKeep, OrdersKeep, RecordsEndTrue, ClientsEndTiled, ConnsEndTiled, DialsEndTold, SessionsEndTold, PlacesAreApart, DrainsEmpty, OrdersRested, TicksRested};

/// A course begins with nothing told, and each call of the worker keeps what holds of it.
pub fn calls_keep_courses()
    ensures begins { CoursesBegin }
    ensures admits { AdmitsKeep }
    ensures turned { TurnedKeep }
    ensures steps { StepsKeep }
    ensures stops { StopsKeep }
    ensures ticks { TicksKeep }
    ensures orders { OrdersKeep }
    ensures places { PlacesAreApart }
{}

/// At the end, where nothing is left, the records are true of the links that are told, and their ranges tile.
pub fn courses_end_true()
    ensures records { RecordsEndTrue }
    ensures clients { ClientsEndTiled }
    ensures conns { ConnsEndTiled }
    ensures dials { DialsEndTold }
    ensures sessions { SessionsEndTold }
{}

/// The caretaker brings nothing to rest, and behind an order to drain nothing rests at its server.
pub fn drains_empty()
    ensures drains { DrainsEmpty }
    ensures orders { OrdersRested }
    ensures ticks { TicksRested }
{}
