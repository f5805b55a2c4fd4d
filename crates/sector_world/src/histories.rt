//! Histories of operations over the sectors of a disk, the newest first, with what recoveries leave of them, of the sectors' changes
//! and of file bytes. The contracts promise that a replay of one server's records
//! makes of a sector what the history is without what isn't durable, that what nobody saw can be removed, and that what a
//! recovery doesn't leave in doubt is on the disk. It holds no code and stands on the meanings of blocks.

ghost use Rattle.std.specs.Prelude.{◌≡◌, ℕ, List, Option, Bool, IsTrue};
ghost use Rattle.sector_bytes.specs.Blocks.{Block};
ghost use Rattle.frang_base.specs.declared.change.Redo.{Redo};
ghost use Rattle.sector_bytes.specs.Replays.{redo_all, up_to};
ghost use Rattle.sector_world.specs.Histories.{Commit, Item, kept, survives, recovered, logical, own, OpsRise};
ghost use Rattle.sector_world.specs.OnDisk.{Rising, OnDisk};
ghost use Rattle.sector_world.specs.HistoryBytes.{Known, OnData, Agree};
ghost use Rattle.sector_world.specs.Seen.{Unseen};
ghost use Rattle.sector_world.specs.Plans.{Plan, IsFramed, Legal};
ghost use Rattle.sector_world.specs.Laws.{OnlyOf, OnlyLoose};

/// A replay made twice is as good as one, and a replay of a server's durable records makes of a sector what the history is
/// without this server's operations that aren't durable, where only this server has operations on it that aren't in place.
pub fn replayed_sector()
    ensures twice { (rs : List Redo) (s : ℕ) (block : Block) → redo_all rs s (redo_all rs s block) ≡ redo_all rs s block }
    ensures removes { (opening : ℕ → Block) (durable : ℕ → ℕ) (s d floor : ℕ) (P : Commit → Bool) (block : Block) (h : List Item)
        → OnlyOf d floor (λ c. IsTrue (P c)) → OnDisk opening durable s (λ c. IsTrue (P c)) block h → Rising opening s h
        → redo_all (up_to (durable d) (own d floor h)) s block ≡ logical opening (kept (survives d (durable d)) h) s }
{}

/// Where no operation of d above k was seen, the history without them is legal where the whole is, and the reads that are left
/// agree with what was known.
pub fn removed_unseen()
    ensures legal { (plan : Plan) → IsFramed plan → (opening : ℕ → Block) (d k : ℕ) (h : List Item) → OpsRise h → Unseen d k h
        → Legal plan opening h → Legal plan opening (kept (survives d k) h) }
    ensures agree { (first : ℕ → Option Block) (d k : ℕ) (h : List Item) → OpsRise h → Unseen d k h → Agree first h
        → Agree first (kept (survives d k) h) }
{}

/// What a recovery of a server's log doesn't leave in doubt of a sector's bytes is what the disk has, where only this server has
/// operations on them that aren't in place.
pub fn doubtless_bytes()
    ensures { (first : ℕ → Option Block) (durable : ℕ → ℕ) (s d n : ℕ) (P : Commit → List Item → Bool) (v : Block) (h : List Item)
        → OnlyLoose first s d n P → OpsRise h → Agree first h → OnData first durable s (λ a g. IsTrue (P a g)) v h
        → Known first s v (recovered d (durable d) n h) }
{}
