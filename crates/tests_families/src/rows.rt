//! How a wrong row of a table is told.
use std::process::Abort;

// Fails where there is a wrong row, and tells its number.
pub fn assert_no_row(rt: &impl Abort, row: Option<usize>) {
    assert_eq!(rt; row, None, "the first wrong row");
}
