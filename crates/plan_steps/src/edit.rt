// What an operation changes.
ghost use Rattle.std.specs.Prelude.{◌≡◌, ◌++◌, ◌∷◌, [], OnOk};
ghost use Rattle.plan_steps.specs.Edits.{edit_of, edits_of};

use bitmap_block::BlockState;
use disk_definitions::{DirEntry, Inode};
use frang_base::{Block, NoMemory, Reply};
use std::alloc::Global;

/// The change of one thing of a disk. Blocks are numbered over all segments, small ones and large ones apart.
#[derive(Drop)]
pub enum Edit {
    /// An inode, in use or free. Its version counts for nothing. Where it is `dated`, the inode's time goes into the change of its
    /// sector even where it stays: so it is with a file that is written or cut.
    Inode {
        number: u32,
        inode: Option<Inode>,
        dated: bool,
    },
    /// Whether the bitmap has an inode in use.
    Bit {
        number: u32,
        used: bool,
    },
    /// What a small block is used for.
    Use {
        block: u32,
        state: BlockState,
    },
    /// A place of a directory's block, 0 to 55, with its entry or free.
    Place {
        block: u32,
        place: u32,
        entry: Option<DirEntry>,
    },
    /// Whether a large block is in use.
    Large {
        block: u32,
        used: bool,
    },
    /// The bytes of a sector of a small block, part 0 to 7.
    Bytes {
        block: u32,
        part: u8,
        bytes: Block,
    },
    /// The bytes of a sector of a large block, part 0 to 2,047.
    LargeBytes {
        block: u32,
        part: u16,
        bytes: Block,
    },
}

/// What a plan is done with: the reply, and the edits that make it, the first one first.
#[derive(Drop)]
pub struct Outcome {
    pub reply: Reply,
    pub edits: Vec<Edit>,
}

impl Outcome {
    /// An answer that changes nothing. It takes no memory.
    pub fn unchanged(alloc: Global, reply: Reply) -> Self
        ensures reply { result.reply ≡ reply }
        ensures edits { result.edits.items ≡ [] }
    {
        Outcome {
            reply,
            edits: Vec::new(alloc),
        }
    }
}

/// Adds an edit at the end.
pub fn push(edits: &mut Vec<Edit>, edit: Edit) -> Result<(), NoMemory>
    ensures ok { OnOk result (edits_of edits.new.items ≡ edits_of edits.old.items ++ edit_of edit ∷ []) }
{
    edits.push(edit)?;
    Ok(())
}
