//! Heads that went out are heads.
ghost use Rattle.std.specs.Prelude.{Bool};
ghost use Rattle.httparse.specs.Grammar.{RequestHead, ResponseHead, IsRequestHead, IsResponseHead};
ghost use Rattle.hx_message.specs.Again.{IsForwardedRequest, IsForwardedAnswer};

/// What goes out for a head is a head again, and would go out as it is.
/// It is a law about texts: the call does nothing.
pub fn heads_go_out_as_heads()
    ensures request { (g : RequestHead) → IsRequestHead g
        → (k : RequestHead) × IsForwardedRequest g k }
    ensures answer { (g : ResponseHead) (closing : Bool) → IsResponseHead g
        → (k : ResponseHead) × IsForwardedAnswer g k closing }
{}
