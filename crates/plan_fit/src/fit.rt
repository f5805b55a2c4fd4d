//! The edits of plans fit the disk: what they write of inodes, entries and bytes may stand there, the blocks and bits that they change are the
//! disk's, places are written only in blocks that are a directory's in the end, bytes only in blocks that are in use for them then, and a block that
//! becomes a directory's is clear. What a disk in its grammar says may stand on it as well, and the changes of a plan are few enough for a record.
//! Each is the contract of a public function with an empty body. It stands on the laws of plans and of what their edits write.

ghost use Rattle.plan_fit.specs.FitNames.{CreateIsFit, MkdirIsFit, SymlinkIsFit, LinkIsFit, UnlinkIsFit, RmdirIsFit, RenameIsFit};
ghost use Rattle.plan_fit.specs.FitDisks.{DisksAreFit};
ghost use Rattle.plan_fit.specs.FitFiles.{WriteFits, FillFits, TruncateFits, ReadFits, StatFits, ListFits, ReadlinkFits, TimeFits};
ghost use Rattle.plan_fit.specs.SmallPlans.{PlansMakeSmallRecords};

/// Over the disk of a tree the edits of the plan of an operation on names may be made: each is fit, and a block that becomes a directory's was one
/// already or is cached as zero.
pub fn plans_of_names_fit_the_disk()
    ensures create { CreateIsFit }
    ensures mkdir { MkdirIsFit }
    ensures symlink { SymlinkIsFit }
    ensures link { LinkIsFit }
    ensures unlink { UnlinkIsFit }
    ensures rmdir { RmdirIsFit }
    ensures rename { RenameIsFit }
{}

/// Over the disk of a tree whose inodes and entries may stand there, the edits of a plan of looks or of file bytes may be made, and no block
/// becomes a directory's.
pub fn plans_of_files_fit_the_disk()
    ensures write { WriteFits }
    ensures fill { FillFits }
    ensures truncate { TruncateFits }
    ensures read { ReadFits }
    ensures stat { StatFits }
    ensures list { ListFits }
    ensures readlink { ReadlinkFits }
    ensures time { TimeFits }
{}

/// What a disk in its grammar says in its inodes and in the places of its directories may stand there.
pub fn disks_are_fit()
    ensures fit { DisksAreFit }
{}

/// The changes of the plan of an operation, over a disk in its grammar on which its edits may be made, are at most 32, of at most 4,096 bytes.
pub fn plans_make_small_records()
    ensures small { PlansMakeSmallRecords }
{}
