//! What contracts alone see of a disk whose images follow from its writes. No value of it is made.

use crate::log::{Log, Origin};

/// What no call changes, the log of the calls so far, and the log before each of them, the newest
/// first.
pub struct History {
    pub origin: Origin,
    pub log: Log,
    pub before: [Log; 0],
}
