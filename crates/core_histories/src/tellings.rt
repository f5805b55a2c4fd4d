//! What happened at the first moment. The law is the contract of a public function with an empty body.

ghost use Rattle.core_histories.specs.Tellings.{FirstMomentsAreTold};

/// At the first moment nothing has happened, nothing was said, and the world's history is empty.
pub fn first_moments_are_told()
    ensures first { FirstMomentsAreTold }
{}
