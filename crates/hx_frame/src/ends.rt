//! Where bodies and whole messages end.
ghost use Rattle.std.specs.Prelude.{◌≡◌, ◌++◌, ℕ, List, []};
ghost use Rattle.hx_message.specs.declared.MethodKind.{MethodKind};
ghost use Rattle.hx_message.specs.declared.BodyKind.{BodyKind};
ghost use Rattle.hx_message.specs.declared.BodyKind.TheVariants.{ToEnd};
ghost use Rattle.hx_message.specs.Body.{IsBody};
ghost use Rattle.hx_message.specs.Partial.{HasWholeRequest, HasWholeAnswer};

/// No body that tells its own end is the front of a longer one, so a whole request ends at one place, and so does a
/// whole answer that tells its own end.
pub fn one_end()
    ensures body { (kind : BodyKind) (bytes more : List ℕ) → (kind ≡ ToEnd → ⊥)
        → IsBody kind bytes → IsBody kind (bytes ++ more) → more ≡ [] }
    ensures request { (bytes : List ℕ) (j k : ℕ)
        → HasWholeRequest bytes j → HasWholeRequest bytes k → j ≡ k }
    ensures answer { (m : MethodKind) (bytes : List ℕ) (j k : ℕ)
        → HasWholeAnswer m bytes j → HasWholeAnswer m bytes k → j ≡ k }
{}
