//! Laws of the file tree and of histories: what their definitions must mean, in the subject's own words. Each is the contract of a
//! public function with an empty body:
//!
//! - **Trees**: what operations do and refuse, walks, counts, removals, transcripts.
//! - **Histories**: what is seen and synced, and what is left once unseen entries are removed.
//! - **Shapes**: paths and operations go by the shape of a tree, without the bytes of files.
//!
//! They hold for all trees, entries and histories; the layers above rest on them, and cite the lemmas of `proofs/` that say the same over plain variables.
#![tactic(auto)]

mod histories;
mod shapes;
mod trees;

pub use histories::{
    a_sync_or_an_unmount_makes_sure, an_entry_is_seen_by_another_server,
    what_has_no_record_changes_nothing, what_is_left_does_what_it_did,
};
pub use shapes::{
    a_shape_has_all_but_the_bytes, operations_go_by_the_shape, paths_go_by_the_shape,
};
pub use trees::{
    a_birth_tells_the_kind, a_look_changes_nothing, a_refusal_leaves_the_tree,
    apply_goes_by_what_it_touches, births_stay_distinct, doubt_is_left_by_a_last_write,
    histories_go_from_the_left, links_lead_to_what_is_there, nodes_come_and_go_one_at_a_time,
    recoveries_leave_a_history_legal, transcripts_are_closed_under_prefixes,
    trees_stay_well_formed, what_is_settled_is_of_the_history, what_nobody_saw_can_go,
};
