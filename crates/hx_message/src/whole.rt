//! Messages that went out are messages.
ghost use Rattle.std.specs.Prelude.{Bool, ℕ, List};
ghost use Rattle.hx_message.specs.declared.MethodKind.{MethodKind};
ghost use Rattle.hx_message.specs.Forwarded.{ForwardsRequest, ForwardsAnswer};
ghost use Rattle.hx_message.specs.Message.{IsRequest, IsAnswer};

/// What goes out for a whole message is a whole message of the same method, an answer's body of the same kind. It is a
/// law: the call does nothing.
pub fn messages_go_out_whole()
    ensures request { (taken put : List ℕ) (method : MethodKind) → IsRequest taken method
        → ForwardsRequest taken put → IsRequest put method }
    ensures answer { (taken put : List ℕ) (method : MethodKind) (closing : Bool) → IsAnswer method taken
        → ForwardsAnswer taken closing put → IsAnswer method put }
{}
