//! That a text tells its transcript. The function is there for its clause.
ghost use Rattle.std.specs.Prelude.{◌≡◌, ℕ, List};
ghost use Rattle.hx_script.specs.declared.transcript.Transcript.{Transcript};
ghost use Rattle.hx_script.specs.Numbers.{HasNumbers};
ghost use Rattle.hx_script.specs.Printed.{Spells};

/// No text is the printed form of two transcripts.
pub fn one_transcript()
    ensures alone { (text : List ℕ) (t u : Transcript) → HasNumbers t → HasNumbers u
        → Spells text t → Spells text u → t ≡ u }
{}
