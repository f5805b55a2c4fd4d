// Blocks in their boxes.
ghost use Rattle.std.specs.Prelude.{if◌then◌else◌};
ghost use Rattle.std.specs.Box.{box_value, with_value};
ghost use Rattle.sector_bytes.specs.Changes.{changed, is_change};

use crate::block::lay;
use crate::well_formed::is_change;
use frang_base::{Block, Change};
use ordered_map::Edit;

/// The edit of a box that writes a block over what it holds.
#[derive(Drop)]
pub(crate) struct Overwrite {
    pub(crate) block: Block,
}

impl Edit<Box<Block>> for Overwrite {
    ghost edited = { λ edit kept. with_value kept edit.block };

    fn edit(&self, kept: &mut Box<Block>) {
        **kept = self.block;
    }
}

/// The edit of a box that lays a change over what it holds, where the change is well formed.
#[derive(Drop)]
pub(crate) struct Lay<'a> {
    pub(crate) change: &'a Change,
}

impl<'a> Edit<Box<Block>> for Lay<'a> {
    ghost edited = { λ edit kept. if is_change edit.change.now then with_value kept (changed (box_value kept) edit.change.now) else kept };

    fn edit(&self, kept: &mut Box<Block>) {
        if is_change(self.change) {
            lay(&mut **kept, self.change);
        }
    }
}
