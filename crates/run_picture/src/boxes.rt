// What is drawn: bars and labels, in pixels.
use frang_base::NoMemory;
use std::alloc::Global;

/// What a bar or a label is for, which decides its colour.
#[derive(Clone, Copy, Debug, PartialEq, Eq)]
pub enum Role {
    /// The bed of a lane.
    Lane,
    /// A server is mounted.
    Up,
    /// A server is stalled.
    Stalled,
    /// A server is dead.
    Dead,
    /// A recovery goes on.
    Recovery,
    /// An answer: done, refused by the tree, or not done at all.
    Done,
    Refused,
    Failed,
    /// A line that is no answer: a death, a renewal, a backup, a line of the tree.
    Notice,
    /// An answer that a recovery removes.
    Struck,
    /// Every tenth line, and what the host lets pass.
    Ruler,
    Tick,
    Barrier,
}

/// A rectangle, with words that tell of it, or none.
#[derive(Drop)]
pub struct Bar {
    pub x: u32,
    pub y: u32,
    pub width: u32,
    pub height: u32,
    pub role: Role,
    pub title: Option<String>,
}

/// Words in one line, drawn exactly as wide as this, struck out or not.
#[derive(Drop)]
pub struct Label {
    pub x: u32,
    pub y: u32,
    pub width: u32,
    pub text: String,
    pub struck: bool,
}

/// Bars, the later ones above the others, and labels above all of them.
#[derive(Drop)]
pub struct Picture {
    pub width: u32,
    pub height: u32,
    pub bars: Vec<Bar>,
    pub labels: Vec<Label>,
}

/// The height of a label, and the width of one of its characters.
pub const LABEL_HEIGHT: u32 = 12;

pub const CHARACTER_WIDTH: u32 = 6;

/// How wide a text is drawn.
pub fn text_width(text: &str) -> u32 {
    (text.chars().count() as u64)
        .saturating_mul(u64::from(CHARACTER_WIDTH))
        .min(1_000_000) as u32
}

impl Picture {
    /// A picture of this width, in which nothing is drawn.
    pub fn new(alloc: Global, width: u32) -> Picture {
        Picture {
            width,
            height: 0,
            bars: Vec::new(alloc),
            labels: Vec::new(alloc),
        }
    }

    /// Draws a bar without words.
    pub fn push_bar(
        &mut self,
        (x, y): (u32, u32),
        (width, height): (u32, u32),
        role: Role,
    ) -> Result<(), NoMemory> {
        self.bars.push(Bar {
            x,
            y,
            width,
            height,
            role,
            title: None,
        })?;
        Ok(())
    }

    /// Draws words that aren't struck out.
    pub fn push_label(&mut self, x: u32, y: u32, text: String) -> Result<(), NoMemory> {
        let width = text_width(text.as_str());
        self.labels.push(Label {
            x,
            y,
            width,
            text,
            struck: false,
        })?;
        Ok(())
    }
}
