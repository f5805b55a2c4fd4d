//! Worked runs of the core over logs of eight slots, computed, some in which calls fail; one, in which a block is cleared, in parts: each of its plans looks
//! for a block among all that a disk may have. And openings: what is put on a fresh disk and on that of an image.
#![tactic(auto)]
