//! Histories over a fresh disk: it meets the conditions of the laws of histories of lines, and one history of real plans over it is worked out, in which a
//! recovery removes an operation. It holds no code, and stands on those laws and on the fresh disk.

ghost use Rattle.stop_laws.specs.Beginning.{FreshFollows, FreshWorldsBegin};
ghost use Rattle.stop_laws.specs.TwoServers.{TwoServers};

/// Servers over a fresh disk of 1 to 64 segments, none of which is mounted, meet the conditions of the laws of histories: the disk stands for the root alone
/// with versions left for the numbers of operations, covers, kinds, free sectors and written ones are as it says, and its parameters count as a sector with
/// a version.
pub fn a_fresh_disk_begins_histories()
    ensures follows { FreshFollows }
    ensures begins { FreshWorldsBegin }
{}

/// A history of real plans over a fresh disk: one server makes a directory, another creates a file in it, the first creates a file beside it and dies, and
/// the recovery of its log leaves what the other saw of it.
pub fn two_servers_over_a_fresh_disk()
    ensures example { TwoServers }
{}
