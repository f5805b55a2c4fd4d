//! The plans of lines as plans over the sectors of the disk, as the histories of operations know them: of which sectors with versions and of which
//! bytes an outcome goes, what it changes, moves, claims and makes, and under which locks. Each law is the contract of a public function with an empty
//! body, and is stated for any program that plans and keeps a record of facts; that of lines keeps it. It stands on the definitions and laws of lines
//! and plans, and on the histories.

ghost use Rattle.line_histories.specs.Planners.{LinesAreSound};
ghost use Rattle.line_histories.specs.Done.{DoneIsOutcome, LineDoneIsOutcome};
ghost use Rattle.line_histories.specs.Guards.{SoundPlansAreFramed, LinePlansAreFramed, SoundPlansKeepGuards, LinePlansKeepGuards};
ghost use Rattle.line_histories.specs.Owned.{SoundPlansOwn, LinePlansOwn, LinePlansLookWhereTheyLie};
ghost use Rattle.line_histories.specs.Places.{LinesWriteInPlace, LineDoneIsMade};
ghost use Rattle.line_histories.specs.Outcomes.{TestSaysWhatIsAllowed, OutcomesAreOfPlans, MakesAreOfEdits};

/// The plans of lines keep all that is asked of a program that plans: over any disk bytes of files decide nothing, and what is edited was looked at;
/// over the disk of a tree their locks cover what they look at and edit, edits are tidy, covers follow, what moves is owned, and directories' blocks stay.
pub fn line_plans_are_sound()
    ensures sound { LinesAreSound }
{}

/// A plan over the sectors of the disk goes by its hint and by the sectors with versions that it looks at: over disks that agree in these it comes to
/// the same outcome. What its outcome makes of bytes is a function of the bytes that are read.
pub fn plans_over_sectors_are_framed()
    ensures framed { SoundPlansAreFramed }
    ensures lines { LinePlansAreFramed }
{}

/// Over the sectors of a tree but for the bytes of files, an outcome keeps the guards under which an operation may be done: what it looks at and reads
/// is under locks that it uses, and what it changes, moves, writes and frees under locks that it uses alone; what it changes was looked at, and gets the
/// next version; and what it makes a directory's was nobody's, and zeros.
pub fn plans_over_sectors_keep_guards()
    ensures kept { SoundPlansKeepGuards }
    ensures lines { LinePlansKeepGuards }
{}

/// An outcome is that of a finished plan, of an operation that has a path and may be asked of a plan: its paths have names, a target may stand in an
/// inode, and bytes are bytes. Whatever bytes are read, it writes, frees or leaves the sectors of bytes that the plan's edits write, free or leave.
pub fn outcomes_are_of_plans()
    ensures says { TestSaysWhatIsAllowed }
    ensures plans { OutcomesAreOfPlans }
    ensures makes { MakesAreOfEdits }
{}

/// Where a line is finished over the cached sectors and the held bitmaps of a disk that is a tree's, the plan over all sectors, with the held segments
/// for its hint, comes to an outcome that says the same but for bytes: the reply, the count of directories' blocks, the changes of the record, the
/// moves, the claims and the locks. All that it looks at or reads is at hand.
pub fn finished_lines_are_outcomes()
    ensures outcome { DoneIsOutcome }
    ensures lines { LineDoneIsOutcome }
{}

/// Over the disk of a tree, what a line writes into a sector of file bytes goes by the bytes of that sector alone. So where a line is finished over what
/// is at hand, it writes and frees what the outcome makes of the cached blocks that it reads.
pub fn lines_write_in_place()
    ensures place { LinesWriteInPlace }
    ensures made { LineDoneIsMade }
{}

/// Over the whole disk of a tree, each sector that an outcome changes, and each into which it writes file bytes or which it frees, lies in its region of
/// the disk and was under a lock that the outcome uses alone.
pub fn outcomes_own_what_they_write()
    ensures own { SoundPlansOwn }
    ensures lines { LinePlansOwn }
{}

/// Over the whole disk of a tree, each sector that the outcome of a line looks at or changes, and each sector of bytes that it reads, lies in its region of
/// the disk and was under a lock that the outcome uses.
pub fn lines_look_where_they_lie()
    ensures { LinePlansLookWhereTheyLie }
{}
