//! Doubt by the theorem on sectors against doubt by the rules on histories: where a recovery leaves a sector of file bytes in doubt, the rules leave the
//! sector of the file that lies there in doubt. And what is known of file bytes, one operation back. The laws are the contracts of public functions with
//! empty bodies. They stand on the rules on histories and on the histories of sectors; what is asked of a history that is told on both sides is said
//! entry by entry. Beside them, worked histories of a few servers, computed on both sides: which cells of files a recovery leaves in doubt and which tree it
//! leaves; which sectors of file bytes come into doubt and what is known of the others.

ghost use Rattle.byte_trees.specs.Doubts.{DoubtIsTheSame, WritesTouch};
ghost use Rattle.byte_trees.specs.Before.{KnownStepsBack};

/// Along a history that is told twice, as entries of the file tree and as what operations did to sectors: where the last write of a sector of bytes is a
/// server's, above a number, and none of another server looked at it since, and a sector of a file lies there, the rules on histories leave that sector
/// of the file in doubt for this server. The number is one up to which the server's syncs and mounts cover its operations. A write, fill or truncate
/// answered `ok` touches the file that it meets.
pub fn doubt_is_the_same()
    ensures same { DoubtIsTheSame }
    ensures touch { WritesTouch }
{}

/// Where a disk has what is known of bytes after an operation, there is a disk that had what was known before: each sector that the operation was shown, and
/// that wasn't free, has these bytes on it; one that it neither wrote nor made one with a version has the bytes of the disk; and what it wrote, the disk has.
pub fn what_was_known_before()
    ensures back { KnownStepsBack }
{}
