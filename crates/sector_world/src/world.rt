//! Servers over the sectors of one disk, with locks, leases, caches, private logs, writes in flight and recoveries, where any
//! server may stop at any moment. The contracts promise that caches agree, that the disk with its logs replayed is what was
//! done but for ends of some servers' work that nobody saw, that no sector with a version ever gets older, that all answers
//! are those of one tree, and that what is known of file bytes is on the disk. It stands on the histories of single sectors.

ghost use Rattle.std.specs.Prelude.{◌≡◌, ℕ, List, Bool};
ghost use Rattle.frang_base.specs.declared.lock.LockId.{LockId};
ghost use Rattle.sector_bytes.specs.Blocks.{Block, zero_block};
ghost use Rattle.sector_world.specs.Histories.{settled};
ghost use Rattle.sector_world.specs.Plans.{Plan, IsFramed, Legal};
ghost use Rattle.sector_world.specs.World.{World, start};
ghost use Rattle.sector_world.specs.Steps.{Event, Run, Can, after};
ghost use Rattle.sector_world.specs.Kinds.{Good};
ghost use Rattle.sector_world.specs.Claims.{Holds, Orderly, IsOneDisk, IsQuiet, IsSettled};
ghost use Rattle.sector_world.specs.Planned.{PlannedIf, ArePlanned, IsLegal};
ghost use Rattle.sector_world.specs.Trees.{Related, Apply, MeetsTree, NewIf, AreNew, Distinct, Stand, first_disk};
ghost use Rattle.sector_world.specs.Examples.{IsLostRun, IsKeptRun, IsFailedRun, IsHandedRun, IsTwiceRun, IsLateRun, IsReadRun, IsClaimedRun, IsFreedRun, IsRetakenRun};

/// After every run from a disk, of which some sectors have versions and some are of files, and at each next event.
pub fn every_run()
    ensures holds { (servers : ℕ) (disk : ℕ → Block) (logged of_files : ℕ → Bool) (home : ℕ → LockId) (events : List Event) (w : World)
        → Run (start servers disk logged of_files home) events w → Holds w }
    ensures orderly { (servers : ℕ) (disk : ℕ → Block) (logged of_files : ℕ → Bool) (home : ℕ → LockId) (events : List Event) (w : World)
        → Run (start servers disk logged of_files home) events w → (e : Event) → Can w e → Orderly w e }
    ensures one_disk { (servers : ℕ) (disk : ℕ → Block) (logged of_files : ℕ → Bool) (home : ℕ → LockId) (events : List Event) (w : World)
        → Run (start servers disk logged of_files home) events w → (e : Event) → Can w e → (s : ℕ) → IsOneDisk w e s }
    ensures quiet { (servers : ℕ) (disk : ℕ → Block) (logged of_files : ℕ → Bool) (home : ℕ → LockId) (events : List Event) (w : World)
        → Run (start servers disk logged of_files home) events w → IsQuiet w → IsSettled w }
    ensures legal { (plan : Plan) → IsFramed plan
        → (servers : ℕ) (disk : ℕ → Block) (logged of_files : ℕ → Bool) (home : ℕ → LockId) (events : List Event) (w : World)
        → Run (start servers disk logged of_files home) events w → ArePlanned plan (start servers disk logged of_files home) events
        → IsLegal plan w }
{}

/// What every event keeps, for whoever shows that the steps of a system are events of this world: `Good` holds at the start and
/// through each event, and all that holds after a run follows from it alone.
pub fn every_event()
    ensures start { (servers : ℕ) (disk : ℕ → Block) (logged of_files : ℕ → Bool) (home : ℕ → LockId)
        → Good (start servers disk logged of_files home) }
    ensures step { (w : World) (e : Event) → Can w e → Good w → Good (after w e) }
    ensures holds { (w : World) → Good w → Holds w }
    ensures orderly { (w : World) → Good w → (e : Event) → Can w e → Orderly w e }
    ensures quiet { (w : World) → Good w → IsQuiet w → IsSettled w }
    ensures one_disk { (w : World) → Good w → (e : Event) → Can w e → (s : ℕ) → IsOneDisk w e s }
    ensures legal { (plan : Plan) → IsFramed plan → (w : World) (e : Event) → PlannedIf plan w e → Good w
        → Legal plan w.opening (settled w.history) → Legal plan (after w e).opening (settled (after w e).history) }
    ensures left { (plan : Plan) → IsFramed plan → (w : World) → Good w → Legal plan w.opening (settled w.history) → IsLegal plan w }
{}

/// After every run whose operations are planned and have new numbers: for all plans, trees, relations of sectors that stand for a
/// tree and of numbers that are new to one, and ways to apply operations to trees that fit together. A relation is given by its
/// evidence, a `Standing` of one disk and one tree, a `Newness` of one number and one tree, so it need not be a test.
pub fn every_tree<Tree, Standing, Newness>()
    ensures { (plan : Plan) → IsFramed plan
        → (disk_of : Standing → ℕ → Block) (tree_of : Standing → Tree) (apply : Apply Tree) (number_of : Newness → ℕ) (new_to : Newness → Tree)
        → MeetsTree Tree plan (Related disk_of tree_of) apply (Related number_of new_to)
        → (servers : ℕ) (disk : ℕ → Block) (logged of_files : ℕ → Bool) (home : ℕ → LockId) (first : Tree)
        → Related disk_of tree_of (first_disk logged disk) first → (events : List Event) (w : World)
        → Run (start servers disk logged of_files home) events w → ArePlanned plan (start servers disk logged of_files home) events
        → AreNew Tree (Related number_of new_to) first (start servers disk logged of_files home) events
        → Stand Tree (Related disk_of tree_of) apply first w }
{}

/// What every event keeps of the numbers of operations, and what follows for trees from what every event keeps.
pub fn every_tree_event<Tree, Standing, Newness>()
    ensures numbers { (number_of : Newness → ℕ) (new_to : Newness → Tree) (first : Tree) (w : World) (e : Event)
        → NewIf Tree (Related number_of new_to) first w e → Distinct (Related number_of new_to) first (settled w.history)
        → Distinct (Related number_of new_to) first (settled (after w e).history) }
    ensures stand { (plan : Plan)
        → (disk_of : Standing → ℕ → Block) (tree_of : Standing → Tree) (apply : Apply Tree) (number_of : Newness → ℕ) (new_to : Newness → Tree)
        → MeetsTree Tree plan (Related disk_of tree_of) apply (Related number_of new_to) → (first : Tree) (w : World)
        → Related disk_of tree_of w.opening first → IsLegal plan w → Distinct (Related number_of new_to) first (settled w.history) → Good w
        → Stand Tree (Related disk_of tree_of) apply first w }
{}

/// Runs in which the guards are met together.
pub fn example_runs()
    ensures lost { (w : World) × IsLostRun w }
    ensures kept { (w : World) × IsKeptRun w }
    ensures failed { (w : World) × IsFailedRun w }
    ensures handed { (v : World) × (w : World) × IsHandedRun v w }
    ensures twice { (w : World) × IsTwiceRun w }
    ensures late { (w : World) × IsLateRun w }
    ensures read { (v : World) × (w : World) × IsReadRun v w }
    ensures claimed { (w : World) × IsClaimedRun w }
    ensures freed { (w : World) × IsFreedRun w }
    ensures retaken { (w : World) × IsRetakenRun w }
{}
