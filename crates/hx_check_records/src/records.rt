//! What a record says of the bytes of an exchange.
ghost use Rattle.std.specs.Prelude.{◌↔◌, IsTrue};
ghost use Rattle.hx_check_records.specs.Exchanges.{PassIs, CutIs};

use crate::answers::{begins_back, comes_back};
use crate::requests::{begins_out, method_out};

/// A pass: whether a whole request went out, and a whole answer to its method came back.
pub fn pass_holds(closing: bool, ask: &[u8], sent: &[u8], took: &[u8], gave: &[u8]) -> bool
    ensures { IsTrue result ↔ PassIs closing ask.now sent.now took.now gave.now }
{
    match method_out(ask, sent) {
        None => false,
        Some(method) => comes_back(method, closing, took, gave),
    }
}

/// A cut: whether beginnings of such texts did.
pub fn cut_holds(closing: bool, ask: &[u8], sent: &[u8], took: &[u8], gave: &[u8]) -> bool
    ensures { IsTrue result ↔ CutIs closing ask.now sent.now took.now gave.now }
{
    begins_out(ask, sent) && begins_back(closing, took, gave)
}
