//! That a thread wanted memory.

use work_signs::Signs;

/// A thread wanted memory. Only the sign gives it, so that no one gives a play up who didn't see that.
#[derive(Clone, Copy)]
pub struct Stopped(());

/// Whether the sign is raised.
pub(crate) fn stop_seen(signs: &Signs) -> Option<Stopped> {
    if signs.is_stopped() {
        Some(Stopped(()))
    } else {
        None
    }
}
