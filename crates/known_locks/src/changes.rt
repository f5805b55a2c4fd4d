// What a grant, a wish and a return make of what a server knows of a lock.
ghost use Rattle.std.specs.Prelude.{◌≡◌};
ghost use Rattle.lock_definitions.specs.Locks.{no_claim, is_no_claim};
ghost use Rattle.lock_definitions.specs.Calls.{answered, granted, wishing, given_up, shared};

use frang_base::Mode;
use lock_definitions::{Claim, Wanted};

/// The claim of a server that neither holds nor wishes the lock.
pub(crate) fn no_claim() -> Claim
    ensures { result ≡ no_claim }
{
    Claim {
        held: None,
        wishes_shared: false,
        wishes_sole: false,
    }
}

/// Whether nothing is held or wished.
pub(crate) fn is_no_claim(claim: Claim) -> bool
    ensures { result ≡ is_no_claim claim }
{
    claim.held.is_none() && !claim.wishes_shared && !claim.wishes_sole
}

/// What the answer to a want makes of the claim: the mode is granted, or the wish is noted.
pub(crate) fn answered(answer: Wanted, mode: Mode, claim: Claim) -> Claim
    ensures { result ≡ answered answer mode claim }
{
    match answer {
        Wanted::Granted => granted(mode, claim),
        Wanted::Wait { .. } => wishing(mode, claim),
    }
}

// The claim once the mode is granted: a sole hold stays sole, and a wish that is served has ended.
fn granted(mode: Mode, claim: Claim) -> Claim
    ensures { result ≡ granted mode claim }
{
    match (mode, claim.held) {
        (Mode::Shared, None) | (Mode::Shared, Some(Mode::Shared)) => Claim {
            held: Some(Mode::Shared),
            wishes_shared: false,
            wishes_sole: claim.wishes_sole,
        },
        (Mode::Sole, _) | (_, Some(Mode::Sole)) => Claim {
            held: Some(Mode::Sole),
            wishes_shared: false,
            wishes_sole: false,
        },
    }
}

// The claim with a wish for this mode.
fn wishing(mode: Mode, claim: Claim) -> Claim
    ensures { result ≡ wishing mode claim }
{
    match mode {
        Mode::Shared => Claim {
            wishes_shared: true,
            ..claim
        },
        Mode::Sole => Claim {
            wishes_sole: true,
            ..claim
        },
    }
}

/// The claim once its hold is given up.
pub(crate) fn given_up(claim: Claim) -> Claim
    ensures { result ≡ given_up claim }
{
    Claim {
        held: None,
        ..claim
    }
}

/// The claim once its hold is a shared one.
pub(crate) fn shared(claim: Claim) -> Claim
    ensures { result ≡ shared claim }
{
    Claim {
        held: claim.held.map(|_| Mode::Shared),
        ..claim
    }
}
