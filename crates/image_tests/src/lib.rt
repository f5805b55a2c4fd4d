//! Tests of images and of the check of their disks. Of the check: a small sound disk, what edits of it are told as, each report worked out by
//! hand from the rules, and reports as lines. Of the commands by their words: a sound image with two logs whose bytes are written here, the
//! fresh image and what one change makes of it, the lines of a deep chain, the times that images of both formats keep, and the faults of files and of the outside; and runs on images with saves behind them. It
//! promises nothing by itself; it stands on the program, on the check and on the readers of images and disks.
#![tactic(auto)]

#[cfg(test)]
mod builders;
#[cfg(test)]
mod chains;
#[cfg(test)]
mod damages;
#[cfg(test)]
mod disks;
#[cfg(test)]
mod kinds_of_sectors;
#[cfg(test)]
mod lines;
#[cfg(test)]
mod logs;
#[cfg(test)]
mod nodes_and_blocks;
#[cfg(test)]
mod runs;
#[cfg(test)]
mod times;
