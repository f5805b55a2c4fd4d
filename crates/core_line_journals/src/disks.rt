//! The disk, and what is acknowledged. Each law is the contract of a public function with an empty body.

ghost use Rattle.core_line_journals.specs.Disks.{CommitsAreLogged, CommitsKeepTheDisk};

/// After a Commit, where what it claims is cached clean, the side of each sector that counts is the disk's: what is claimed is zeros on both sides. And with a record the log of its server isn't acknowledged to its end, so that nothing
/// is asked of its operations.
pub fn commits_keep_the_disk()
    ensures disk { CommitsKeepTheDisk }
    ensures logged { CommitsAreLogged }
{}
