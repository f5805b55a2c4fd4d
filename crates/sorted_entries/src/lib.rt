//! Lists of entries that ascend by their keys, whatever the key: the place of a key among them, and what a binary search finds and an edit
//! at its place makes of them. All of it is definitions and lemmas, which the maps that lie in sorted vectors rest on. It stands on std alone.
#![tactic(auto)]
