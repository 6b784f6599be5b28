//! Own answers.
ghost use Rattle.std.specs.Prelude.{◌↔◌, IsTrue};
ghost use Rattle.hx_check_records.specs.Exchanges.{OwnIs};

use crate::prefix::starts;
use hx_answers::own_answer;

/// Whether the client was given the own answer of that status, or a beginning of it.
pub fn own_holds(status: u16, gave: &[u8]) -> bool
    ensures { IsTrue result ↔ OwnIs status gave.now }
{
    match own_answer(status) {
        None => false,
        Some(text) => starts(text, gave),
    }
}
