//! Changes of what a disk says, where it is the picture of a tree's nodes: a node comes or goes, a directory gets or loses an entry or
//! a block, a node gets other links, a file gets other cells. Each is a short list of edits, and its law says whose picture the edited
//! store is, and what of the naming stays. Each law is the contract of a public function with an empty body. The plans of operations
//! rest on them, and cite the lemmas of `proofs/`. It stands on the definitions of disks and trees.

ghost use Rattle.disk_definitions.specs.ChangeLaws.{EditsGoOn, NamesCome, NamesGo, NamesMove, NamesAreTaken, FilesFitBySizes, PicturesGoByWhatCounts, NodesCome, EntriesCome, EntriesGo, EntriesAreReplaced, DirectoriesGrow, LinksChange, DroppedNodesGo, EditsDrop, NodesGo};
ghost use Rattle.disk_definitions.specs.Resizing.{FilesAreResized, OwnBlocksDo};

/// The edits of two lists one after the other are those of the first and then, of the store that they lead to, those of the second.
pub fn edits_go_from_the_left()
    ensures goes_on { EditsGoOn }
{}

/// An entry that comes, goes, gets another name or another node changes what is found at its names alone, and there is one entry more, one
/// less, or as many.
pub fn entries_change_at_one_name()
    ensures comes { NamesCome }
    ensures goes { NamesGo }
    ensures moves { NamesMove }
    ensures taken { NamesAreTaken }
{}

/// A store is the picture of the same nodes, under the same naming, as one that says the same but for places of blocks that were never a
/// directory's and for bytes that are in use for none. This is said of nodes whose files fit into their blocks, as those of inodes do.
pub fn a_picture_goes_by_what_counts()
    ensures counts { PicturesGoByWhatCounts }
    ensures fit { FilesFitBySizes }
{}

/// A node without blocks and names comes into a free inode at a new birth.
pub fn a_node_comes()
    ensures comes { NodesCome }
{}

/// A directory gets an entry at a free place.
pub fn a_directory_gets_an_entry()
    ensures comes { EntriesCome }
{}

/// A directory loses the entry of a name.
pub fn a_directory_loses_an_entry()
    ensures goes { EntriesGo }
{}

/// The place of a name gets the entry of another name, or of the same name with another node.
pub fn an_entry_is_replaced()
    ensures replaced { EntriesAreReplaced }
{}

/// A directory gets a free block, which has no entries.
pub fn a_directory_grows()
    ensures grows { DirectoriesGrow }
{}

/// A file or a link gets so many links.
pub fn a_node_gets_other_links()
    ensures change { LinksChange }
{}

/// A node in which no name stands goes: the store with the values that are left is the picture of the others, and the edits lead to it.
pub fn a_node_goes()
    ensures values { DroppedNodesGo }
    ensures edits { EditsDrop }
    ensures goes { NodesGo }
{}

/// A file gets other cells, fewer or more: whatever store has the values of its new inode, blocks and bytes is the picture of the nodes with
/// this file. One that gets no longer does with the blocks that it has.
pub fn a_file_gets_other_cells()
    ensures values { FilesAreResized }
    ensures own { OwnBlocksDo }
{}
