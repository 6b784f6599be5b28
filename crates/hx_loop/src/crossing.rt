//! What crosses threads.

use crate::doorman::Lanes;
use crate::hand::Hand;
use hx_conn::Rested;
use hx_link::Net;
use hx_pool::Seat;

fn crosses<T: Send>(_: &T) {}

/// A worker and the lanes of the door may cross threads where seats, nets and links may.
pub fn loops_cross<S: Seat<Rested<N::L>> + Send, N: Net + Send>(
    hand: &Hand<'_, S, N>,
    lanes: &Lanes<'_, N::L>,
)
where
    N::L: Send,
{
    crosses(hand);
    crosses(lanes);
}
