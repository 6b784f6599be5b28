//! Whole messages within the limits: nothing on their way stops them. Laws, whose calls do nothing.
#![tactic(auto)]

ghost use Rattle.hx_whole.specs.Requests.{RequestsAreFound, RequestsHaveHeads, RequestsEnd, RequestsNeverBreak, RequestsEndOnce, RequestsTellClose};
ghost use Rattle.hx_whole.specs.Answers.{AnswersAreFound, AnswersHaveHeads, AnswersEnd, AnswersNeverBreak, AnswersEndOnce, AnswersTellEnd, AnswersKeepKind};

/// A whole request within the limits is found, never breaks, and ends once.
pub fn whole_requests_pass()
    ensures found { RequestsAreFound }
    ensures has_head { RequestsHaveHeads }
    ensures ends { RequestsEnd }
    ensures never_breaks { RequestsNeverBreak }
    ensures once { RequestsEndOnce }
    ensures close { RequestsTellClose }
{}

/// A whole answer within the limits is found, never breaks, and ends once, or with its link.
pub fn whole_answers_pass()
    ensures found { AnswersAreFound }
    ensures has_head { AnswersHaveHeads }
    ensures ends { AnswersEnd }
    ensures never_breaks { AnswersNeverBreak }
    ensures once { AnswersEndOnce }
    ensures tells { AnswersTellEnd }
    ensures kind { AnswersKeepKind }
{}
