//! Laws of what a line makes of the sectors of files, of the parts of files, which are their sectors counted from the first, and of the bytes at which it
//! looks: each sector below a file's size lies where this file had it, or is written, so none is left unwritten, and what is given back is free; what is
//! written is, sector by sector, the bytes of a write or fill among those that were there, and its entry meets that part by the rules on histories; and a
//! line looks only at bytes of files. Each law is the contract of a public function with an empty body. Histories rest on them, along which the sectors below
//! a file's size were written. They stand on the laws of what plans and lines move, and on the laws of nodes.

ghost use Rattle.line_histories.specs.Files.{LinesLeaveFilled, LinesGiveBackFree};
ghost use Rattle.line_histories.specs.Sectors.{LinesKeepOrWrite, LinesWritePieces};
ghost use Rattle.line_histories.specs.Looked.{LinesLookAtBytesOfFiles};
ghost use Rattle.line_histories.specs.Parts.{LinesKeepParts, LinesWriteWhatTheyMeet};

/// Over the disk of a tree, each sector that holds bytes of a file below its size after a finished line held bytes of a file before, or is written by it.
pub fn files_stay_filled_through_lines()
    ensures filled { LinesLeaveFilled }
{}

/// Over the disk of a tree, a block of file bytes that a finished line gives back is in no use after it, and counts as one that was never a directory's.
pub fn what_lines_give_back_is_free()
    ensures free { LinesGiveBackFree }
{}

/// Over the disk of a tree, each sector below a file's size after a finished line is written by it, or lies where this same file had it before, as the
/// same one counted from its first.
pub fn lines_keep_or_write_sectors_of_files()
    ensures sectors { LinesKeepOrWrite }
{}

/// Over the disk of a tree, each edit of file bytes by a finished line is of a write or fill whose path, links followed, leads to a file: it sets one of
/// the sectors that the bytes meet, where the file has it after the line, to the new bytes among the old ones that count there, or among zeros.
pub fn lines_write_pieces()
    ensures pieces { LinesWritePieces }
{}

/// Over any disk, each sector of file bytes at which a line looks holds bytes of a file below its size: a read looks at those that it shows, a write or a
/// fill at those with bytes that it leaves.
pub fn lines_look_at_bytes_of_files()
    ensures files { LinesLookAtBytesOfFiles }
{}

/// Over the disk of a tree, whatever naming it has after a finished line: each part of a file below its size lies in a sector that the line writes, or
/// lies where this file, in the same inode, had it before.
pub fn parts_stay_or_are_written()
    ensures parts { LinesKeepParts }
{}

/// Where a finished line writes the sector in which a part of a file lies afterwards, it is a write or fill answered `ok` that meets this part of this file.
pub fn lines_write_what_they_meet()
    ensures meets { LinesWriteWhatTheyMeet }
{}
