//! What contracts alone see of a disk's calls. No value of these is made.

/// What no call changes: the bytes that were there at first, and the number of the call from which
/// on every call fails, or 0 where none is known.
pub struct Origin {
    pub first: [u8; 0],
    pub stop: u64,
}

/// A write: the number of its call, its place, its bytes, and the number of the first sync after it
/// that succeeded.
pub struct Write {
    pub call: u64,
    pub at: u64,
    pub bytes: [u8; 0],
    pub sync: Option<u64>,
}

/// The calls so far: their number, how many of them failed, the writes among them, the newest
/// first, and whether a write that failed is missing there.
pub struct Log {
    pub calls: u64,
    pub faults: u64,
    pub writes: [Write; 0],
    pub lacks: bool,
}
