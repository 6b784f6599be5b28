//! What samples of texts mean, by computation alone.
ghost use Rattle.std.specs.Prelude.{◌∷◌, ◌++◌, [], codes};
ghost use Rattle.hx_config.specs.Samples.{HasFault, Means, usual_text, usual_meaning, backends};
ghost use Rattle.hx_config_parts.specs.declared.fault.Rule.TheVariants as rule;

/// What a usual file says, and one fault of each rule. It is a law: the call does nothing.
pub fn samples()
    ensures usual { Means usual_text usual_meaning }
    ensures not_ascii { HasFault (codes "glo" ++ 127 ∷ codes "bal\n") 1 rule.NotAscii }
    ensures unknown_word { HasFault (codes "defaults\n mode tcp\n") 2 rule.UnknownWord }
    ensures wrong_place { HasFault (codes "\nnbthread 4\n") 2 rule.WrongPlace }
    ensures missing_value { HasFault (codes "global\n nbthread\n") 2 rule.MissingValue }
    ensures bad_number { HasFault (codes "global\n nbthread 17\n") 2 rule.BadNumber }
    ensures bad_time { HasFault (codes "defaults\n timeout client 25d\n") 2 rule.BadTime }
    ensures bad_address { HasFault (codes "frontend a\n bind 1.2.3:80\n") 2 rule.BadAddress }
    ensures double_name { HasFault (codes "listen a\nbackend a\n") 2 rule.DoubleName }
    ensures no_such_backend { HasFault (codes "frontend a\n default_backend b\n") 1 rule.NoSuchBackend }
    ensures too_many { HasFault (backends (codes "abcdefghijklmnopq")) 17 rule.TooMany }
    ensures no_server { HasFault (codes "\nlisten a\n") 2 rule.NoServer }
{}
