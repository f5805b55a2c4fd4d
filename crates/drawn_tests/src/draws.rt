// Numbers that are drawn, and what is expected of each drawn call.
use std::process::Abort;

/// A generator of numbers below 2^31; the same state gives the same numbers.
#[derive(Drop)]
pub(crate) struct Draws {
    state: u64,
}

impl Draws {
    pub(crate) fn of(state: u64) -> Draws {
        Draws { state }
    }

    /// The next number.
    pub(crate) fn draw(&mut self) -> u64 {
        self.state = self
            .state
            .wrapping_mul(6_364_136_223_846_793_005)
            .wrapping_add(1_442_695_040_888_963_407);
        self.state >> 33
    }
}

/// The two that are called beside one another are alike, in this and after so many calls.
pub(crate) fn expect_alike(rt: &impl Abort, are_alike: bool, what: &str, calls: u32) {
    assert!(rt; are_alike, "{what} after {calls} calls");
}
