//! Over a course of a worker's calls each link follows its plan in the script. Laws, whose call does nothing.
#![tactic(auto)]

ghost use Rattle.hx_planned.specs.Laws.{PlansBegin, AdmitsPlanned, TurnedPlanned, StepsPlanned, StopsPlanned, TicksPlanned, OrdersPlanned, GravesFollow};

/// A course begins with all plans left, and each call of the worker keeps that each link follows its plan.
pub fn calls_keep_plans()
    ensures begins { PlansBegin }
    ensures admits { AdmitsPlanned }
    ensures turned { TurnedPlanned }
    ensures steps { StepsPlanned }
    ensures stops { StopsPlanned }
    ensures ticks { TicksPlanned }
    ensures orders { OrdersPlanned }
    ensures graves { GravesFollow }
{}
