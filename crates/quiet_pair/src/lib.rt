//! A pair whose first copy keeps the lines said and can be made to fail at one put, and that is never refilled. The contracts promise all that an outside promises; that the first copy's outside is given
//! back with the first of the pair's puts and no line, beside the lines of all of the pair's record; and, where no call of that outside failed, which puts these are. It stands on pairs and on the
//! outside that keeps lines.
#![tactic(auto)]

mod first_copy;
mod name;
mod pair;

pub use first_copy::FirstCopy;
pub use name::Naming;
pub use pair::QuietPair;
