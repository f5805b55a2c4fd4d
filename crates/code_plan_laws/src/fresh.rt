//! A fresh disk meets the conditions of the plans: it stands for the tree of the root alone, and over it every operation that may be asked may be
//! planned. It is the contract of a public function with an empty body. It stands on the definitions of disks and of plans over them.

ghost use Rattle.code_plan_laws.specs.Fresh.{FreshStands, FreshIsAsked, FreshIsAtHand};

/// A fresh disk of 1 to 64 segments stands for the tree of the root alone, and over it every operation that may be asked may be planned: so the
/// conditions of the plans can be met.
pub fn plans_may_be_asked()
    ensures stands { FreshStands }
    ensures asked { FreshIsAsked }
    ensures at_hand { FreshIsAtHand }
{}
