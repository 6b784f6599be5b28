//! What samples of scripts mean, by computation alone.
ghost use Rattle.std.specs.Prelude.{◌++◌, codes};
ghost use Rattle.hx_script_parts.specs.Samples.{Means, HasFault, HasConfigFault, sample_head, sample_text, sample_meaning};
ghost use Rattle.hx_script_parts.specs.declared.fault.Rule.TheVariants as rule;

/// What a script with each kind of line says, and one fault of each rule but the limits. It is a law: the call does
/// nothing.
pub fn samples()
    ensures lines { Means sample_text sample_meaning }
    ensures config { HasConfigFault (codes "hx-script 1\nconfig 1\nfrob\n") 1 2 }
    ensures bad_first_line { HasFault (codes "hx-script 2\n") 1 rule.BadFirstLine }
    ensures bad_line { HasFault (sample_head ++ codes "frob\n") 6 rule.BadLine }
    ensures bad_number { HasFault (sample_head ++ codes "tick 01\n") 6 rule.BadNumber }
    ensures bad_text { HasFault (sample_head ++ codes "client w 0 0\npiece 0 0 \"\\xA0\"\n") 7 rule.BadText }
    ensures no_such_frontend { HasFault (sample_head ++ codes "client x 0 0\n") 6 rule.NoSuchFrontend }
    ensures no_such_server { HasFault (sample_head ++ codes "drain 0 w/t\n") 6 rule.NoSuchServer }
    ensures bad_worker { HasFault (sample_head ++ codes "client w 1 0\n") 6 rule.BadWorker }
    ensures wrong_place { HasFault (sample_head ++ codes "room 1\n") 6 rule.WrongPlace }
    ensures moment_falls { HasFault (sample_head ++ codes "client w 0 0\npiece 5 0 \"\"\nend 4 0\n") 8 rule.MomentFalls }
{}
