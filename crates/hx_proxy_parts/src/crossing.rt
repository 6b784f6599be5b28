//! What crosses threads.

use crate::machine_clock::MachineClock;
use crate::sock_door::SockDoor;
use crate::sock_link::SockLink;
use crate::sock_net::SockNet;

fn crosses<T: Send>(_: &T) {}

fn is_shared<T: Sync>(_: &T) {}

/// A clock may be shared by threads.
pub fn clock_is_shared<R: Sync>(clock: &MachineClock<R>) {
    is_shared(clock);
}

/// Links, nets and doors may cross threads.
pub fn all_cross<R: std::net::Net + Drop + Send>(
    link: &SockLink,
    net: &SockNet<R>,
    door: &SockDoor<R>,
) {
    crosses(link);
    crosses(net);
    crosses(door);
}
