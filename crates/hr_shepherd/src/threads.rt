//! Threads: a shepherd may be moved from one to another.

use crate::shepherd::Shepherd;

/// Asks for `Shepherd` to be `Send`. It does nothing; where a shepherd weren't, this crate would have no proof.
pub fn is_send() {
    may_cross::<Shepherd>()
}

// Wants a type that is `Send`.
fn may_cross<T: Send>() {}
