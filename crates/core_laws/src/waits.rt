//! What the answer to a mount and the end of a recovery wait for: of each slot, sector and block, where the guards test lists of them. Each law is the
//! contract of a public function with an empty body.

ghost use Rattle.core_laws.specs.Waits.{MountsReadTheirLogs, RecoveriesEndDone};

/// A mount whose answer is open gets `mounted` only where every slot of its log is read.
pub fn a_mount_reads_its_whole_log()
    ensures read { MountsReadTheirLogs }
{}

/// A recovery ends only once it has read its log, has looked at each sector that a record names and that may change, what each look wanted is written, and
/// the log is sealed.
pub fn a_recovery_ends_once_it_is_done()
    ensures done { RecoveriesEndDone }
{}
