//! What such a moment gives. Each law is the contract of a public function.

ghost use Rattle.std.specs.Prelude.{ℕ};
ghost use Rattle.core_definitions.specs.Runs.{State};
ghost use Rattle.core_runs.specs.Kept.{Related};
ghost use Rattle.core_runs.specs.Trees.{DisksReadStand, KeptAreOfLines, TreesStandAsTold};
ghost use Rattle.core_world.specs.Journals.{Journal};
ghost use Rattle.sector_world.specs.World.{World};

use core_transcripts::read_scripts_have_own_numbers;
use core_tree_reads::trees_are_read_at_rest;
use opening_laws::a_disk_stands_by_its_regions;
use rest_laws::a_disk_at_rest_stands;

/// At a moment at which all stands beside, the world's servers are those of the laws of what servers did: their operations are lines, over a first disk whose cells are known, and what happened is told
/// on both sides.
pub fn kept_moments_are_of_lines<Evidence>()
    ensures lines { (moment_of : Evidence → State) (world_of : Evidence → World) (journal_of : Evidence → ℕ → Journal) → KeptAreOfLines (Related moment_of world_of journal_of) }
{}

/// And once the host has begun to read the tree all servers are off, so the world's disk stands for the tree of the history that the lines said tell. Where all sectors have their size, and that tree has
/// as many segments as the core counts, so does the disk itself, which is what the lines of the tree rest on that are said then.
pub fn trees_stand_as_told<Evidence>()
    ensures world { (moment_of : Evidence → State) (world_of : Evidence → World) (journal_of : Evidence → ℕ → Journal) → DisksReadStand (Related moment_of world_of journal_of) }
    ensures disk { (moment_of : Evidence → State) (world_of : Evidence → World) (journal_of : Evidence → ℕ → Journal) → TreesStandAsTold (Related moment_of world_of journal_of) }
{
    read_scripts_have_own_numbers();
    trees_are_read_at_rest();
    a_disk_at_rest_stands();
    a_disk_stands_by_its_regions();
}
