// The disk on which a script is run.
ghost use Rattle.std.specs.Prelude.{◌≡◌, IsTrue};
ghost use Rattle.hall_scripts.specs.Runs.{beginning_of, may_begin};

use disk_definitions::{Disk, Param};

/// The disk on which a script is run.
#[derive(Clone, Copy)]
pub enum StartDisk<'d> {
    /// A fresh one of so many segments, 1 to 64.
    Fresh { segments: u32 },
    /// That of an image, once its logs are replayed, with the parameters that it has.
    Image { param: Param, disk: &'d Disk },
}

impl StartDisk<'_> {
    /// How many segments it has.
    pub fn segments(&self) -> u32
        ensures { result ≡ (beginning_of self.now).segments }
    {
        match self {
            StartDisk::Fresh { segments } => *segments,
            StartDisk::Image { param, .. } => param.segments,
        }
    }

    /// The number of the run.
    pub fn run(&self) -> u32
        requires { IsTrue (may_begin self.now) }
        ensures { result ≡ (beginning_of self.now).run }
    {
        match self {
            StartDisk::Fresh { .. } => 1,
            StartDisk::Image { param, .. } => param.run + 1,
        }
    }
}
