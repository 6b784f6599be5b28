//! Beginnings of texts, and what is behind them.
ghost use Rattle.std.specs.Prelude.{◌≡◌, ◌≤◌, ◌↔◌, IsTrue, length, drop};
ghost use Rattle.hx_message.specs.Partial.{IsPrefix};

/// Whether the bytes begin with these.
pub(crate) fn starts(bytes: &[u8], front: &[u8]) -> bool
    ensures { IsTrue result ↔ IsPrefix front.now bytes.now }
{
    bytes.starts_with(front)
}

/// What is behind the first n bytes.
pub(crate) fn behind(bytes: &[u8], n: usize) -> &[u8]
    requires { n ≤ length bytes.now }
    ensures { result.now ≡ drop n bytes.now }
{
    &bytes[n..]
}
