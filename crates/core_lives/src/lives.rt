//! The events of locks and lives as events of the world that is kept beside the core. Each law is the contract of a public function.

ghost use Rattle.core_lives.specs.Cleared.{ClearedStayFree, LivesShrinkCaches, SyncsLeadOn};
ghost use Rattle.core_lives.specs.Lives.{ClosesLeadOn, LivesLeadOn, MountsLeadOn, UnmountsLeadOn};

use core_facts::{slots_read_are_the_disks, stale_writes_are_late, who_holds_a_log_recovers_it};
use core_laws::{a_mount_reads_its_whole_log, one_recovery_is_under_way, who_rests_has_nothing};
use core_world::{
    asks_are_events, deaths_are_events, gives_are_events, renews_are_events, ticks_are_events,
};
use ring_definitions::good_logs_stay_good;

/// From each moment of a run an Ask, a Give, a Renew, a Tick, a death and a Resume are events that may happen, and leave the history as it was: Take where the lock is granted, Give or
/// Lower, Renew, Tick with Renew of the host, Crash with Fade of each write that is lost, and Give of each lock with Renew.
pub fn lives_lead_on()
    ensures lives { LivesLeadOn }
{
    asks_are_events();
    gives_are_events();
    renews_are_events();
    ticks_are_events();
    deaths_are_events();
    stale_writes_are_late();
    who_holds_a_log_recovers_it();
}

/// So is the end of a mount, by an unmount or at the end of a run, of which an entry of the history tells: Give of each lock, and Unmount. Its log is then at rest: it ends where all is
/// acknowledged, and its records are in place, as nothing of the server is dirty.
pub fn leaves_lead_on()
    ensures unmount { UnmountsLeadOn }
    ensures close { ClosesLeadOn }
{
    good_logs_stay_good();
    stale_writes_are_late();
    who_holds_a_log_recovers_it();
}

/// And a sync, of which an entry tells, is Sync, where each sector that is dirty beside those of file bytes is free if it has no version: it is of a block that is cleared. So it stays at
/// each of these events, which cache nothing.
pub fn syncs_lead_on()
    ensures sync { SyncsLeadOn }
    ensures shrink { LivesShrinkCaches }
    ensures free { ClearedStayFree }
{}

/// And a mount, of which an entry tells, is Ack of all that is durable, Mount, and Reclaim of all operations before: nothing of the server is cached, so they are in place, and its log
/// begins anew behind the end that the mount read. That this end is far below the end of numbers is a premise here.
pub fn mounts_lead_on()
    ensures mount { MountsLeadOn }
{
    who_rests_has_nothing();
    one_recovery_is_under_way();
    stale_writes_are_late();
    a_mount_reads_its_whole_log();
    slots_read_are_the_disks();
    good_logs_stay_good();
}
