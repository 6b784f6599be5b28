//! That what is printed is read back. Each function is there for its clause.
ghost use Rattle.std.specs.Prelude.{◌≡◌, ◌≤◌, ℕ, List, Ok, length};
ghost use Rattle.hx_script.specs.Printed.{Spells};
ghost use Rattle.hx_script.specs.declared.transcript.Transcript.{Transcript};
ghost use Rattle.hx_transcripts.specs.Fits.{Fits};
ghost use Rattle.hx_transcripts.specs.Meaning.{longest_text, meaning_of, parts_of};

use crate::fits::transcript_fits;
use hx_script::Transcript;

/// A text that spells a transcript, and is not too long, has no fault: it means that transcript.
pub fn printed_is_read_back()
    ensures { (text : List ℕ) (t : Transcript) → Fits t → Spells text t → length text ≤ longest_text
        → meaning_of text ≡ Ok (parts_of t) }
{}

/// The printed form of a transcript of a program, where it is not too long, is read back as that transcript.
pub fn is_read_back(t: &Transcript)
    ensures { (text : List ℕ) → Spells text t.now → length text ≤ longest_text → meaning_of text ≡ Ok (parts_of t.now) }
{
    transcript_fits(t);
}
