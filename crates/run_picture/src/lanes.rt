// The lanes: which there are, how many rows of words each has, and where it lies.
use crate::boxes::LABEL_HEIGHT;
use crate::moments::Band;
use frang_base::limits::SERVERS;
use frang_base::{NoMemory, ServerId};
use std::alloc::Global;

/// The height of the part of a lane in which bands and marks are drawn.
pub const BED_HEIGHT: u32 = 16;
// What lies free below each lane.
const LANE_GAP: u32 = 6;
// What lies free behind a word in its row.
const WORD_GAP: u32 = 6;

/// A lane: whether anything is shown in it, where each of its rows of words ends, its top, and the band that goes on from a place.
#[derive(Drop)]
pub struct Lane {
    pub used: bool,
    pub rows: Vec<u32>,
    pub top: u32,
    pub band: Band,
    pub since: u32,
}

impl Lane {
    fn new(alloc: Global) -> Lane {
        Lane {
            used: false,
            rows: Vec::new(alloc),
            top: 0,
            band: Band::Off,
            since: 0,
        }
    }

    /// The first row that is free from a place on, which then ends behind a word of this width.
    pub fn row_for(&mut self, x: u32, width: u32) -> Result<usize, NoMemory> {
        let end = x.saturating_add(width).saturating_add(WORD_GAP);
        for (i, row) in self.rows.iter_mut().enumerate() {
            if *row <= x {
                *row = end;
                return Ok(i);
            }
        }
        let count = self.rows.len();
        self.rows.push(end)?;
        Ok(count)
    }

    /// How high it is, with its rows of words and the gap below.
    pub fn height(&self) -> u32 {
        let rows = (self.rows.len() as u64).min(10_000) as u32;
        BED_HEIGHT + rows * LABEL_HEIGHT + LANE_GAP
    }
}

/// The lanes of the host and of the servers, in this order.
pub fn new_lanes(alloc: Global) -> Result<Vec<Lane>, NoMemory> {
    let mut lanes = Vec::new(alloc);
    lanes.push(Lane::new(alloc))?;
    for _ in 0..SERVERS {
        lanes.push(Lane::new(alloc))?;
    }
    Ok(lanes)
}

/// The place of a lane: that of the host also for a number that no server has.
pub fn place_of(who: ServerId) -> usize {
    if usize::from(who.0) < SERVERS {
        usize::from(who.0) + 1
    } else {
        0
    }
}
