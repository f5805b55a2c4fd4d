// What all servers have and wish of one lock.
ghost use Rattle.std.specs.Prelude.{◌≡◌, ◌<◌, ◌≤◌, length, slice_set};
ghost use Rattle.lock_definitions.specs.Locks.{no_claim, is_no_claim};
ghost use Rattle.lock_table.specs.Asked.{claim_by, is_unclaimed, unclaimed, is_held_by_none, holders_beside, is_wished_beside, asked_by};

use crate::modes::{asked_of, clashes, is_wished_in};
use frang_base::limits::SERVERS;
use frang_base::{Mode, ServerId};
use lock_definitions::{AskedFor, Claim};
use std::marker::Model;

/// What each server has and wishes of one lock, by the number of the server.
#[derive(Drop)]
pub(crate) struct Claimed {
    claims: [Claim; SERVERS],
}

impl Model for Claimed {
    ghost use Rattle.std.specs.Prelude.{◌≡◌, List, length};
    ghost use Rattle.frang_base.specs.declared.limits.TheConstants.{SERVERS};
    ghost use Rattle.lock_definitions.specs.declared.claim.Claim.{Claim};

    ghost Value = { List Claim };

    ghost view = { λ claimed. claimed.claims };

    ghost invariant = { λ claimed. length claimed.claims ≡ SERVERS };
}

/// The claim of a server that neither holds nor wishes the lock.
pub(crate) fn no_claim() -> Claim
    ensures { result ≡ no_claim }
{
    Claim {
        held: None,
        wishes_shared: false,
        wishes_sole: false,
    }
}

fn is_no_claim(claim: Claim) -> bool
    ensures { result ≡ is_no_claim claim }
{
    claim.held.is_none() && !claim.wishes_shared && !claim.wishes_sole
}

#[tactic(auto, unfolding(crate::specs::Asked::unclaimed))]
fn no_claims() -> [Claim; SERVERS]
    ensures { result ≡ unclaimed }
{
    [no_claim(); SERVERS]
}

impl Claimed {
    /// Nobody has or wishes the lock.
    pub(crate) fn new() -> Claimed
        ensures { result ≡ unclaimed }
    {
        Claimed {
            claims: no_claims(),
        }
    }

    /// The same claims once more.
    pub(crate) fn copy(&self) -> Claimed
        ensures claims { result ≡ self.now }
        ensures long { length result ≡ SERVERS }
    {
        Claimed {
            claims: self.claims,
        }
    }

    /// A server's claim. There is none of a server that isn't one of the sixteen.
    pub(crate) fn claim(&self, server: ServerId) -> Claim
        ensures claim { result ≡ claim_by server.0 self.now }
        ensures past { SERVERS ≤ server.0 → result ≡ no_claim }
    {
        match self.claims.get(server.0 as usize) {
            Some(claim) => *claim,
            None => no_claim(),
        }
    }

    /// Takes over a server's claim.
    pub(crate) fn set(&mut self, server: ServerId, claim: Claim)
        requires { server.0 < SERVERS }
        ensures claims { self.new ≡ slice_set self.old server.0 claim }
        ensures own { claim_by server.0 self.new ≡ claim }
    {
        self.claims[server.0 as usize] = claim;
    }

    /// Ends a server's claim.
    pub(crate) fn end(&mut self, server: ServerId)
        ensures { self.new ≡ slice_set self.old server.0 no_claim }
    {
        let at = server.0 as usize;
        if at < SERVERS {
            self.claims[at] = no_claim();
        }
    }

    /// Whether nobody has or wishes the lock.
    pub(crate) fn is_unclaimed(&self) -> bool
        ensures { result ≡ is_unclaimed self.now }
    {
        self.claims.iter().all(|claim| is_no_claim(*claim))
    }

    /// Whether no server holds the lock.
    #[tactic(auto, unfolding(lock_definitions::specs::Servers::any_server))]
    pub(crate) fn is_unheld(&self) -> bool
        ensures { result ≡ is_held_by_none self.now }
    {
        let mut held = false;
        for server in 0..SERVERS as u8 {
            held |= self.claim(ServerId(server)).held.is_some();
        }
        !held
    }

    /// A bit for each other server that holds the lock in a mode that conflicts.
    #[tactic(auto, unfolding(lock_definitions::specs::Servers::server_bits))]
    pub(crate) fn holders(&self, server: ServerId, mode: Mode) -> u32
        ensures { result ≡ holders_beside server.0 mode self.now }
    {
        let mut holders = 0;
        for other in 0..SERVERS as u8 {
            if other != server.0 && clashes(mode, self.claim(ServerId(other)).held) {
                holders |= 1 << other;
            }
        }
        holders
    }

    // Whether another server's wish for the lock in this mode is noted.
    #[tactic(auto, unfolding(lock_definitions::specs::Servers::any_server))]
    fn is_wished_beside(&self, server: ServerId, mode: Mode) -> bool
        ensures { result ≡ is_wished_beside server.0 mode self.now }
    {
        let mut wished = false;
        for other in 0..SERVERS as u8 {
            wished |= other != server.0 && is_wished_in(self.claim(ServerId(other)), mode);
        }
        wished
    }

    /// What a server is asked for, if a noted wish of another server conflicts with its hold.
    pub(crate) fn asked_for(&self, server: ServerId) -> Option<AskedFor>
        ensures { result ≡ asked_by server.0 self.now }
    {
        let held = self.claim(server).held;
        if held.is_none() {
            return None;
        }
        let for_shared = self.is_wished_beside(server, Mode::Shared);
        let for_sole = self.is_wished_beside(server, Mode::Sole);
        asked_of(held, for_shared, for_sole)
    }
}
