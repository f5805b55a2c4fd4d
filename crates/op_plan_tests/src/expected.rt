// What a row expects.
use std::process::Abort;

/// What is told is what was worked out.
pub(crate) fn expect_told(rt: &impl Abort, row: &str, told: &str, wanted: &str) {
    assert!(rt; told == wanted, "{row}: {told}");
}
