//! The words that lines begin with.
ghost use Rattle.std.specs.Prelude.{◌≡◌};
ghost use Rattle.hx_config_parts.specs.Tables.{found};
ghost use Rattle.hx_script_parts.specs.Keywords.{first_words};

use hx_config_parts::same;

/// The first word of a line behind the configuration.
#[derive(Clone, Copy, PartialEq, Eq, Debug)]
pub enum FirstWord {
    Client,
    Server,
    Piece,
    End,
    Room,
    Fail,
    Drain,
    Ready,
    Tick,
}

/// What an order line orders.
#[derive(Clone, Copy, PartialEq, Eq, Debug)]
pub enum OrderWord {
    Drain,
    Ready,
}

pub fn first_word(word: &[u8]) -> Option<FirstWord>
    ensures { result ≡ found first_words word.now }
{
    if same(word, b"client") {
        Some(FirstWord::Client)
    } else if same(word, b"server") {
        Some(FirstWord::Server)
    } else if same(word, b"piece") {
        Some(FirstWord::Piece)
    } else if same(word, b"end") {
        Some(FirstWord::End)
    } else if same(word, b"room") {
        Some(FirstWord::Room)
    } else if same(word, b"fail") {
        Some(FirstWord::Fail)
    } else if same(word, b"drain") {
        Some(FirstWord::Drain)
    } else if same(word, b"ready") {
        Some(FirstWord::Ready)
    } else if same(word, b"tick") {
        Some(FirstWord::Tick)
    } else {
        None
    }
}
