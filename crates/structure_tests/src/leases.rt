// The clock at both ends, and a lease on both sides of its expiry.
use frang_base::limits::LAST_TICK;
use lease_clock::{Clock, ClockEnd, Ended, Lease};

#[test]
fn ticks_to_its_end_and_no_further(rt: HostRuntime) {
    let mut clock = Clock::new();
    assert!(rt; clock.tick() == Ok(()) && clock.now() == 1);
    let mut last = Clock::at(LAST_TICK);
    assert!(rt; last.tick() == Err(ClockEnd) && last.now() == 18_446_744_073_709_551_585);
}

// It ends after 35, and writes under it arrive until 20.
fn ends_after_35(lease: &Lease) -> bool {
    lease.expiry() == 35 && lease.stamp() == 20 && !lease.ended(35) && lease.ended(36)
}

const ENDED: Ended = Ended {
    now: 36,
    expiry: 35,
};

#[test]
fn a_lease_renewed_at_5_ends_at_36(rt: HostRuntime) {
    let mut lease = Lease::new(0);
    assert!(rt; lease.renew(5) == Ok(35));
    assert!(rt; ends_after_35(&lease));
    assert!(rt; lease.renew(36) == Err(ENDED));
    assert!(rt; ends_after_35(&lease));
}
