// That what is answered and what a tree holds can be said. Each law is the contract of a function that does nothing.
ghost use Rattle.std.specs.Prelude.{◌≡◌, ◌<◌, ◌^◌, List, ℕ, Ok, true};
ghost use Rattle.std.specs.List.{All, list_all};
ghost use Rattle.frang_base.specs.Name.{is_name};
ghost use Rattle.frang_base.specs.declared.op.Op.{Op};
ghost use Rattle.frang_base.specs.declared.reply.Reply.{Reply};
ghost use Rattle.frang_base.specs.declared.said.Said.{Said};
ghost use Rattle.frang_base.specs.declared.said.Said.TheVariants as said;
ghost use Rattle.frang_base.specs.declared.script.Line.{Line};
ghost use Rattle.frang_base.specs.declared.sector.ServerId.{ServerId};
ghost use Rattle.tree_definitions.specs.declared.history.Item.{Item};
ghost use Rattle.tree_definitions.specs.Apply.{apply};
ghost use Rattle.tree_definitions.specs.History.{Opening};
ghost use Rattle.tree_definitions.specs.Live.{live_history};
ghost use Rattle.tree_definitions.specs.Perform.{perform};
ghost use Rattle.tree_definitions.specs.Removal.{tree_of};
ghost use Rattle.tree_definitions.specs.Tree.{FileTree, fresh};
ghost use Rattle.tree_definitions.specs.TreeLines.{tree_lines};
ghost use Rattle.script_definitions.specs.SaidReading.{IsWho, IsProperSaid, is_path_text};
ghost use Rattle.script_definitions.specs.ScriptPrinted.{path_text};
ghost use Rattle.script_definitions.specs.Sayable.{IsSayableTree, IsSayableOp, IsSayableReply, IsSayableApplied, IsSayableItem, IsSayableLine, HasSayableReply, HasCounts, IsTreeLine};
ghost use Rattle.script_definitions.specs.ScriptText.{script_of};

/// A script that was read asks only what can be said: its paths are of names, its targets are targets, its texts are of bytes.
pub fn scripts_ask_what_can_be_said()
    ensures { (bytes : List ℕ) (script : List Line) → script_of bytes ≡ Ok script → All IsSayableLine script }
{}

/// Such an operation, applied to a tree that can be said, leaves one, and its answer can be said; so too where links are followed.
pub fn what_is_applied_can_be_said()
    ensures performed { (tree : FileTree) (op : Op) (birth when m : ℕ) → IsSayableTree tree → IsSayableOp op → IsSayableApplied m (perform tree op birth when m) }
    ensures applied { (tree : FileTree) (op : Op) (birth when m : ℕ) → IsSayableTree tree → IsSayableOp op → IsSayableApplied m (apply tree op birth when m) }
{}

/// The fresh tree can be said, and so can what a history of such operations and replies leaves of one that can; the live history is
/// of such ones where the script's lines and the replies said are.
pub fn histories_leave_what_can_be_said()
    ensures fresh { (segments : ℕ) → IsSayableTree (fresh segments) }
    ensures tree { (opening : Opening) (history : List Item) → IsSayableTree opening.tree → All IsSayableItem history → IsSayableTree (tree_of opening history) }
    ensures live { (script : List Line) (run : ℕ) (saids : List Said) → All IsSayableLine script → All HasSayableReply saids → All IsSayableItem (live_history script run saids) }
{}

/// The lines of a tree that can be said are the texts of paths, with the kind of an inode, and with links for a file alone.
pub fn tree_lines_can_be_said()
    ensures { (tree : FileTree) → IsSayableTree tree → All IsTreeLine (tree_lines tree) }
{}

/// Such lines of a tree, and answers of such replies, are lines that can be said where their numbers have 32 bits; and the text of
/// names is that of a path.
pub fn what_can_be_said_is_proper()
    ensures path { (names : List (List ℕ)) → list_all is_name names ≡ true → is_path_text (path_text names) ≡ true }
    ensures node { (path : List ℕ) (kind size links : ℕ) → IsTreeLine (said.Node path kind size links) → size < 2 ^ 32 → links < 2 ^ 32 → IsProperSaid (said.Node path kind size links) }
    ensures answer { (server : ServerId) (line : ℕ) (r : Reply) → IsWho server.0 → line < 2 ^ 32 → IsSayableReply r → HasCounts r → IsProperSaid (said.Answer server line r) }
{}
