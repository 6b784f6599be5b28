//! Which connections a request may go over.
ghost use Rattle.std.specs.Prelude.{◌≡◌};
ghost use Rattle.hx_pool.specs.Rules.{allows};

use hx_base::Mode;

/// Whether `http-reuse` lets a request go over a connection that carried so many exchanges
/// (HAProxy 2.4 Configuration Manual, section 4.2). `first`: the first request of its session.
pub fn allowed(mode: Mode, first: bool, uses: u16) -> bool
    ensures { result ≡ allows mode first uses }
{
    match mode {
        Mode::Never => false,
        Mode::Safe => !first,
        Mode::Aggressive => !first || uses >= 2,
        Mode::Always => true,
    }
}
