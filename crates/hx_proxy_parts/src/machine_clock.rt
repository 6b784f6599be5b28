//! The machine's clock.

use hx_base::Millis;
use hx_link::Clock;
use std::time::Duration;

/// Tells the milliseconds since it was made, by the machine's steady clock. Where that can't be read it tells 0.
#[derive(Drop)]
pub struct MachineClock<R> {
    rt: R,
    start: Duration,
}

impl<R: std::rt::Clock> MachineClock<R> {
    pub fn new(rt: R) -> MachineClock<R> {
        let start = rt.monotonic().unwrap_or(Duration::ZERO);
        MachineClock { rt, start }
    }
}

impl<R: std::rt::Clock> Clock for MachineClock<R> {
    fn now(&self) -> Millis {
        match self.rt.monotonic() {
            Ok(now) => {
                let millis = now.saturating_sub(self.start).as_millis();
                Millis(millis.min(u64::MAX as u128) as u64)
            }
            Err(_) => Millis(0),
        }
    }
}
