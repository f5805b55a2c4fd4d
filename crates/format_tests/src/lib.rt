//! Tests of the formats: worked blocks of each coder, addresses, images, and small disks with the trees that they stand for. The expected
//! bytes are worked out by hand from the format. It promises nothing by itself; it stands on the coders of sectors, on the images and on
//! the reader of disks.
#![tactic(auto)]

#[cfg(test)]
mod bitmaps;
#[cfg(test)]
mod builders;
#[cfg(test)]
mod directories;
#[cfg(test)]
mod disks;
#[cfg(test)]
mod images;
#[cfg(test)]
mod inodes;
#[cfg(test)]
mod layout;
#[cfg(test)]
mod parameters;
#[cfg(test)]
mod runs;
