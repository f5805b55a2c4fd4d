//! A picture of a run: its said lines as an SVG, where time goes to the right by lines said, and the host and each server have a lane. All of it is
//! laid out as boxes first, so that what is drawn can be tested. It stands on the reader and the writer of said lines. Its contracts promise
//! that it is safe and total; how it looks is tested.
#![tactic(auto)]

mod boxes;
mod drawing;
mod lanes;
mod layout;
mod legend;
mod moments;
mod saids;
mod spots;
mod struck;
mod texts;

pub use boxes::{Bar, CHARACTER_WIDTH, LABEL_HEIGHT, Label, Picture, Role};
pub use drawing::svg;
pub use layout::picture;
pub use saids::{SaidFault, read_saids};
pub use spots::Source;
