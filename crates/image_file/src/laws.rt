// Laws of images: reading and writing undo each other.
ghost use Rattle.std.specs.Prelude.{◌≡◌, ℕ, List, Ok, ◌↔◌};
ghost use Rattle.sector_bytes.specs.Bytes.{AreBytes};
ghost use Rattle.sector_bytes.specs.Sectors.{SameSectors, sectors_of};
ghost use Rattle.image_file.specs.Images.{Blocks, IsImage, image_in, image_text, sectors_written};
ghost use Rattle.image_file.specs.Laws.{ReadsBack};

use disk_definitions::Disk;

/// Bytes are read as sectors exactly where they are the image of a disk with these sectors: the text of sectors that ascend, each
/// in a region, not zero and in its grammar, the parameter sector among them.
pub fn images_are_what_is_read()
    ensures { (bytes : List ℕ) (sectors : Blocks) → AreBytes bytes → (image_in bytes ≡ Ok sectors) ↔ IsImage bytes sectors }
{}

/// What was read, written again, gives the same bytes.
pub fn read_images_are_written_again()
    ensures { (bytes : List ℕ) (sectors : Blocks) → AreBytes bytes → image_in bytes ≡ Ok sectors → image_text sectors ≡ bytes }
{}

/// The image of a disk is read as the sectors that aren't zero, which are the disk. If it has a fault, then one of the disk: a
/// sector in no region, or one not in its grammar.
pub fn written_images_read_back(disk: &Disk)
    ensures reads { ReadsBack (sectors_written disk.now) (image_in (image_text disk.now)) }
    ensures whole { SameSectors (sectors_of (sectors_written disk.now)) (sectors_of disk.now) }
{
    let _sectors = disk.len();
}

/// Disks with the same image are the same.
pub fn images_tell_disks_apart(first: &Disk, second: &Disk)
    ensures { image_text first.now ≡ image_text second.now → SameSectors (sectors_of first.now) (sectors_of second.now) }
{
    let _firsts = first.len();
    let _seconds = second.len();
}
