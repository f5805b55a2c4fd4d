//! Two copies of a disk that answer as one disk while one of them works, over any two outsides. The contracts promise all that an outside promises; that two copies in use are equal in every
//! sector, and one that is out differs at most in the sectors that it missed; that a copy goes out only where the other is in use and by a cause that is told; and that a copy that is out is refilled
//! with what it missed. It stands on the trait of the outside.
#![tactic(auto)]

mod asking;
mod counting;
mod in_use;
mod keeping;
mod pair;
mod refilling;

pub use in_use::InUse;
pub use pair::Pair;
pub use refilling::RefillFault;
