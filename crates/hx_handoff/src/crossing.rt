//! What crosses threads.

use crate::giver::Giver;
use crate::taker::Taker;

fn crosses<T: Send>(_: &T) {}

/// The ends of a lane may cross threads where its items may.
pub fn ends_cross<T: Send>(giver: &Giver<'_, T>, taker: &Taker<'_, T>) {
    crosses(giver);
    crosses(taker);
}
