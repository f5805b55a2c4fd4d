// The legend, above the lanes.
use crate::boxes::{LABEL_HEIGHT, Picture, Role, text_width};
use frang_base::NoMemory;
use std::alloc::Global;

// The gap between two words of the legend.
const LEGEND_GAP: u32 = 14;

// The words of the legend, with the width and height of what stands before them.
const LEGEND: [(Role, (u32, u32), &str); 13] = [
    (Role::Up, (9, 9), "mounted"),
    (Role::Stalled, (9, 9), "stalled"),
    (Role::Dead, (9, 9), "dead"),
    (Role::Recovery, (9, 9), "being recovered"),
    (Role::Done, (3, 9), "done"),
    (Role::Refused, (3, 9), "refused by the tree"),
    (Role::Failed, (3, 9), "io, down or expired"),
    (Role::Notice, (3, 9), "no answer"),
    (Role::Struck, (9, 2), "removed by a recovery"),
    (Role::Ruler, (1, 9), "every tenth line said"),
    (Role::Tick, (1, 9), "ticks"),
    (Role::Barrier, (2, 9), "barrier"),
    (
        Role::Lane,
        (0, 0),
        "keeps to N: as far as line N of the script",
    ),
];

// Draws one of its words behind a bar of this width and height.
fn draw_entry(
    alloc: Global,
    picture: &mut Picture,
    (x, y): (u32, u32),
    (role, (wide, high), words): (Role, (u32, u32), &str),
) -> Result<(), NoMemory> {
    let left = x.saturating_add(9u32.saturating_sub(wide) / 2);
    let top = y.saturating_add(1 + 9u32.saturating_sub(high) / 2);
    picture.push_bar((left, top), (wide, high), role)?;
    let text = String::from_str(alloc, words)?;
    picture.push_label(x.saturating_add(LABEL_HEIGHT), y, text)
}

/// Draws the legend from the top on; the height below it.
pub fn draw_legend(alloc: Global, picture: &mut Picture) -> Result<u32, NoMemory> {
    let mut x = 4u32;
    let mut y = 4u32;
    for entry in LEGEND {
        let wide = text_width(entry.2).saturating_add(LABEL_HEIGHT + LEGEND_GAP);
        if x.saturating_add(wide) > picture.width {
            x = 4;
            y = y.saturating_add(LABEL_HEIGHT + 4);
        }
        draw_entry(alloc, picture, (x, y), entry)?;
        x = x.saturating_add(wide);
    }
    Ok(y.saturating_add(LABEL_HEIGHT + 8))
}
