//! The rules of marks, tried on worked scripts. Each function is there for its clauses.
ghost use Rattle.std.specs.Prelude.{◌≡◌, None, Some};
ghost use Rattle.hx_base.specs.declared.rules.Mode.TheVariants as mode;
ghost use Rattle.hx_pool.specs.Totals.{totals_of};
ghost use Rattle.hx_check_parts.specs.Marks.{no_marks, IsStep, IsAllowed, IsWithin};
ghost use Rattle.hx_check_parts.specs.Samples.{EachMark, rules, totals, one_get, pipelined, safe, purged, aggressive, taken_over, ended_at_rest};
ghost use Rattle.hx_check_parts.specs.Samples.{wrong_place, parked_elsewhere, parked_twice, same_uses, number_left_out, closed_by_another, interval_again};

/// The marks of worked scripts are steps of the table.
fn worked_marks()
    ensures one_get { EachMark IsStep no_marks one_get }
    ensures pipelined { EachMark IsStep no_marks pipelined }
    ensures purged { EachMark IsStep no_marks purged }
    ensures aggressive { EachMark IsStep no_marks aggressive }
    ensures taken_over { EachMark IsStep no_marks taken_over }
    ensures ended_at_rest { EachMark IsStep no_marks ended_at_rest }
{}

/// What is wrong in one place is no step of it.
fn wrong_marks()
    ensures wrong_place { ¬ EachMark IsStep no_marks wrong_place }
    ensures parked_elsewhere { ¬ EachMark IsStep no_marks parked_elsewhere }
    ensures parked_twice { ¬ EachMark IsStep no_marks parked_twice }
    ensures same_uses { ¬ EachMark IsStep no_marks same_uses }
    ensures number_left_out { ¬ EachMark IsStep no_marks number_left_out }
    ensures closed_by_another { ¬ EachMark IsStep no_marks closed_by_another }
    ensures interval_again { ¬ EachMark IsStep no_marks interval_again }
{}

/// The modes and the limits let them be, and refuse them in another mode or with a lower limit.
fn modes_and_limits()
    ensures aggressive { EachMark (λ T. IsAllowed (rules mode.Aggressive None 0)) no_marks aggressive }
    ensures not_safe { ¬ EachMark (λ T. IsAllowed (rules mode.Safe None 0)) no_marks aggressive }
    ensures never { ¬ EachMark (λ T. IsAllowed (rules mode.Never None 0)) no_marks one_get }
    ensures two { EachMark (IsWithin (rules mode.Safe (Some 2) 0)) no_marks safe }
    ensures not_one { ¬ EachMark (IsWithin (rules mode.Safe (Some 1) 0)) no_marks safe }
{}

/// The totals of worked marks.
fn worked_totals()
    ensures one_get { totals_of one_get ≡ totals 1 1 0 0 1 1 }
    ensures taken_over { totals_of taken_over ≡ totals 2 3 0 1 2 2 }
{}
