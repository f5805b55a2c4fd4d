//! The judge of the lines said in a run on a fresh disk: whether they are a well-formed transcript of their script, whether their history is legal, and
//! whether each recovery kept what must be kept, with the first line at which each breaks. The contract is the definitions' own word, at every
//! beginning of the lines. It stands on the rules of transcripts and of histories as programs.
#![tactic(auto)]

mod items;
mod misfit;
mod texts;
mod trial;
mod verdict;

pub use misfit::Misfit;
pub use texts::{Judged, judge_texts};
pub use trial::{Found, judge};
pub use verdict::Verdict;
