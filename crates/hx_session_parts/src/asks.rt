//! Requests: their heads are looked at, and spelled anew into the pipe to the server.
ghost use Rattle.std.specs.Prelude.{◌≡◌, ◌↔◌, IsTrue, IfSome, IfNone, ◌<◌, ◌+◌, length};
ghost use Rattle.hx_message.specs.declared.MethodKind.TheVariants.{Connect};
ghost use Rattle.hx_frame.specs.declared.progress.MeterState.TheVariants.{Bad};
ghost use Rattle.hx_frame.specs.Meters.{state_of};
ghost use Rattle.hx_head.specs.Causes.{code_of};
ghost use Rattle.hx_head.specs.declared.refusal.Refusal.{Refusal};
ghost use Rattle.hx_session_parts.specs.Asks.{most_text, AskLooks, HasAsked, IsAsked, SpellsAskWith, LeavesAsk, fault_of_cause, fault_of_framing};

use crate::fault::AskFault;
use hx_frame::{Meter, body_of_request, wants_close};
use hx_head::{HeadRead, RequestHead, forward_request, read_request};
use hx_link::Pipe;
use hx_message::{BodyKind, FrameFault, MethodKind};

/// A request whose head is there.
#[derive(Clone, Copy)]
pub struct Asked {
    pub head: RequestHead,
    /// How the end of its body is found.
    pub kind: BodyKind,
    /// It asks that the connection is closed after the answer (RFC 9112, section 9.6).
    pub wants_close: bool,
}

/// What the bytes at the front of a client's pipe are.
#[derive(Clone, Copy)]
pub enum AskLook {
    /// The head of a request that can be served.
    Whole(Asked),
    /// No whole head is there yet.
    More,
    /// The proxy answers itself.
    Refused(AskFault),
}

/// The fault of a head that was refused with that number.
fn fault_of_head(why: u8) -> AskFault
    ensures { (cause : Refusal) → why ≡ code_of cause → result ≡ fault_of_cause cause }
{
    match why {
        2 | 3 => AskFault::TooLarge,
        4 => AskFault::Version,
        _ => AskFault::Bad,
    }
}

fn fault_of_frame(fault: FrameFault) -> AskFault
    ensures { result ≡ fault_of_framing fault }
{
    match fault {
        FrameFault::UnknownCoding => AskFault::NotImplemented,
        FrameFault::BothLengths
        | FrameFault::SeveralLengths
        | FrameFault::BadLength
        | FrameFault::BadHost => AskFault::Bad,
    }
}

fn is_connect(method: MethodKind) -> bool
    ensures { IsTrue result ↔ (method ≡ Connect) }
{
    matches!(method, MethodKind::Connect)
}

/// Looks for the head of a request at the front of the bytes. The framing is tested first, then the method.
pub fn look_ask(bytes: &[u8]) -> AskLook
    ensures { AskLooks bytes.now result }
{
    match read_request(bytes) {
        HeadRead::More => AskLook::More,
        HeadRead::Refused(why) => AskLook::Refused(fault_of_head(why)),
        HeadRead::Whole(head) => match body_of_request(bytes, &head) {
            Err(fault) => AskLook::Refused(fault_of_frame(fault)),
            Ok(_) if is_connect(head.method) => { AskLook::Refused(AskFault::NotImplemented) }
            Ok(kind) => AskLook::Whole(Asked {
                head,
                kind,
                wants_close: wants_close(bytes, &head),
            }),
        },
    }
}

/// The request at the front of the bytes, where one that can be served is there: it is looked at again.
pub fn asked_at(bytes: &[u8]) -> Asked
    requires { HasAsked bytes.now }
    ensures { IsAsked bytes.now result }
{
    match look_ask(bytes) {
        AskLook::Whole(asked) => asked,
        AskLook::More => unreachable!(),
        AskLook::Refused(_) => unreachable!(),
    }
}

/// Spells the head anew behind the bytes of the pipe to the server, and drops it from the client's. None: the pipe
/// has no room for the text, and nothing changed. The meter stands at the front of the body.
pub fn spell_ask(from: &mut Pipe, to: &mut Pipe, asked: &Asked) -> Option<Meter>
    requires asked { IsAsked from.old.bytes asked.now }
    ensures spelled { IfSome result (λ meter. SpellsAskWith from.old from.new to.old to.new asked.now meter) }
    ensures good { IfSome result (λ meter. state_of meter ≡ Bad → ⊥) }
    ensures none { IfNone result (LeavesAsk from.old from.new to.old to.new asked.now) }
    ensures room { IfNone result (to.old.capacity < length to.old.bytes + most_text) }
{
    let room = to.room();
    match forward_request(from.whole(), &asked.head, to.grow(room)) {
        Ok(n) => {
            to.drop_back(room - n);
            from.drop_front(asked.head.length as usize);
            Some(Meter::new(asked.kind))
        }
        Err(_) => {
            to.drop_back(room);
            None
        }
    }
}
