//! Laws of messages on their way.
ghost use Rattle.hx_session_parts.specs.OnWay.{AskBegins, AskGoesOn, AskEnds, InterimsGoOn, AnswerBegins, AnswerGoesOn, AnswerEnds, AnswerRunsToEnd};

/// A request whose head was spelled and whose body passed is whole where its meter is done, and went out as a whole.
/// It is a law: the call does nothing.
pub fn requests_pass_whole()
    ensures begins { AskBegins }
    ensures goes_on { AskGoesOn }
    ensures ends { AskEnds }
{}

/// An answer, with the interim answers before it, is whole where its meter is done or its link told the end, and went
/// out as a whole. It is a law: the call does nothing.
pub fn answers_pass_whole()
    ensures interims { InterimsGoOn }
    ensures begins { AnswerBegins }
    ensures goes_on { AnswerGoesOn }
    ensures ends { AnswerEnds }
    ensures to_end { AnswerRunsToEnd }
{}
