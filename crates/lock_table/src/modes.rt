// How modes stand to each other, and what a grant, a wish and a return make of a claim.
ghost use Rattle.std.specs.Prelude.{◌≡◌};
ghost use Rattle.lock_definitions.specs.Locks.{is_wished_in};
ghost use Rattle.frang_base.specs.declared.lock.Mode.TheVariants.{Sole};
ghost use Rattle.lock_definitions.specs.Calls.{serves, clashes, answered, granted, wishing, given_up, shared, asked_of};

use frang_base::Mode;
use lock_definitions::{AskedFor, Claim, Wanted};

/// Whether a wanted mode conflicts with the mode in which another server holds the lock.
pub(crate) fn clashes(wanted: Mode, held: Option<Mode>) -> bool
    ensures { result ≡ clashes wanted held }
{
    match (wanted, held) {
        (_, None) => false,
        (_, Some(Mode::Sole)) => true,
        (Mode::Sole, Some(Mode::Shared)) => true,
        (Mode::Shared, Some(Mode::Shared)) => false,
    }
}

/// Whether a lock is held sole.
pub(crate) fn is_sole(held: Option<Mode>) -> bool
    ensures { result ≡ serves held Sole }
{
    matches!(held, Some(Mode::Sole))
}

/// What the answer to a want makes of the claim: the mode is granted, or the wish is noted.
pub(crate) fn answered(answer: Wanted, mode: Mode, claim: Claim) -> Claim
    ensures { result ≡ answered answer mode claim }
{
    match answer {
        Wanted::Granted => granted(mode, claim),
        Wanted::Wait { .. } => wishing(mode, claim),
    }
}

// The claim once the mode is granted: a sole hold stays sole, and a wish that is served has ended.
fn granted(mode: Mode, claim: Claim) -> Claim
    ensures { result ≡ granted mode claim }
{
    match (mode, claim.held) {
        (Mode::Shared, None) | (Mode::Shared, Some(Mode::Shared)) => Claim {
            held: Some(Mode::Shared),
            wishes_shared: false,
            wishes_sole: claim.wishes_sole,
        },
        (Mode::Sole, _) | (_, Some(Mode::Sole)) => Claim {
            held: Some(Mode::Sole),
            wishes_shared: false,
            wishes_sole: false,
        },
    }
}

// The claim with a wish for this mode.
fn wishing(mode: Mode, claim: Claim) -> Claim
    ensures { result ≡ wishing mode claim }
{
    match mode {
        Mode::Shared => Claim {
            wishes_shared: true,
            ..claim
        },
        Mode::Sole => Claim {
            wishes_sole: true,
            ..claim
        },
    }
}

/// The claim once its hold is given up.
pub(crate) fn given_up(claim: Claim) -> Claim
    ensures { result ≡ given_up claim }
{
    Claim {
        held: None,
        ..claim
    }
}

/// The claim once its hold is a shared one.
pub(crate) fn shared(claim: Claim) -> Claim
    ensures { result ≡ shared claim }
{
    Claim {
        held: claim.held.map(|_| Mode::Shared),
        ..claim
    }
}

/// Whether the claim has a wish for this mode.
pub(crate) fn is_wished_in(claim: Claim, mode: Mode) -> bool
    ensures { result ≡ is_wished_in claim mode }
{
    match mode {
        Mode::Shared => claim.wishes_shared,
        Mode::Sole => claim.wishes_sole,
    }
}

/// What a holder is asked for, by its mode and whether others wish the lock shared and sole.
pub(crate) fn asked_of(held: Option<Mode>, for_shared: bool, for_sole: bool) -> Option<AskedFor>
    ensures { result ≡ asked_of held for_shared for_sole }
{
    match held {
        Some(Mode::Sole) if for_shared => Some(AskedFor::Downgrade),
        Some(_) if for_sole => Some(AskedFor::Release),
        _ => None,
    }
}
