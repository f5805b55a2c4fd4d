// All parties: what they are, and each by its number.
ghost use Rattle.std.specs.Prelude.{◌≡◌, ◌≤◌, ◌<◌, ◌==◌, ◌||◌, ℕ, IfOk, IsSomeAnd, IsTrue, Some, false, replicate};
ghost use Rattle.std.specs.List.{slice_get};
ghost use Rattle.std.specs.Option.{option_copied};
ghost use Rattle.frang_base.specs.Functions.{put};
ghost use Rattle.frang_base.specs.declared.limits.TheConstants.{SEGMENTS_MAX, SERVERS};
ghost use Rattle.core_definitions.specs.LineGuards.{is_server};
ghost use Rattle.core_definitions.specs.Scripts.{host_party};
ghost use Rattle.core_definitions.specs.Servers.{first_server};
ghost use Rattle.world_parties.specs.States.{Becomes, IsBare, IsPut, IsRecovery, Keeps, OthersStay, PartyKeeps, State, flags_at, held_at, oldest_at, oldest_of, plan_at, recovering_by, recovery_in, server_of, servers_at};

use crate::all::{first_parties, first_party};
use crate::party::Party;
use frang_base::limits::SERVERS;
use frang_base::{NoMemory, ServerId};
use recovery_demon::Demon;
use std::alloc::Global;
use std::marker::Model;
use std::mem::replace;

/// The sixteen servers by their numbers, each with the recovery that it carries out, the recovery of the host, and which servers are held.
#[derive(Drop)]
pub struct Parties {
    pub(crate) segments: u32,
    pub(crate) list: Vec<Party>,
    pub(crate) host: Option<Demon>,
    pub(crate) held: Vec<bool>,
    pub(crate) alloc: Global,
}

impl Model for Parties {
    ghost use Rattle.world_parties.specs.States.{AreKept, State};

    ghost Value = { State };

    ghost view = { λ p. record { segments = p.segments; parties = p.list.items; host = p.host; held = p.held.items } };

    ghost invariant = { λ p. AreKept (record { segments = p.segments; parties = p.list.items; host = p.host; held = p.held.items }) };
}

// No server is held.
fn none_held(alloc: Global) -> Result<Vec<bool>, NoMemory>
    ensures { IfOk result (λ held. held.items ≡ replicate SERVERS false) }
{
    Ok(vec![in alloc; false; SERVERS]?)
}

impl Parties {
    /// Sixteen servers that were never mounted, over a disk of so many segments; none is held. Its one refusal is want of memory.
    pub fn new(alloc: Global, segments: u32) -> Result<Parties, NoMemory>
        requires { segments ≤ SEGMENTS_MAX }
        ensures servers { IfOk result (λ parties. servers_at parties ≡ (λ a. first_server)) }
        ensures segments { IfOk result (λ parties. parties.segments ≡ segments) }
        ensures held { IfOk result (λ parties. held_at parties ≡ (λ a. false)) }
        ensures bare { IfOk result (λ parties. (a : ℕ) → IsBare parties a) }
    {
        let list = first_parties(alloc)?;
        let held = none_held(alloc)?;
        Ok(Parties {
            segments,
            list,
            host: None,
            held,
            alloc,
        })
    }

    /// How many segments the disk has.
    pub fn segments(&self) -> u32
        ensures segments { result ≡ self.now.segments }
        ensures most { result ≤ SEGMENTS_MAX }
    {
        self.segments
    }

    /// The server of a number, 0 to 15, with its recovery.
    pub fn get(&self, a: ServerId) -> &Party
        requires { a.0 < SERVERS }
        ensures server { server_of result.now ≡ servers_at self.now a.0 }
        ensures id { result.now.server.id ≡ a.0 }
        ensures recovery { result.now.recovery ≡ recovering_by self.now a.0 }
        ensures fits { IsRecovery self.now.segments a.0 result.now.recovery }
        ensures party { slice_get self.now.parties a.0 ≡ Some result.now }
        ensures flags { result.now.server.flying ≡ flags_at self.now a.0 }
        ensures plan { result.now.plan ≡ plan_at self.now a.0 }
        ensures oldest { oldest_of result.now ≡ oldest_at self.now a.0 }
    {
        &self.list[usize::from(a.0)]
    }

    /// Takes the party of a number, 0 to 15, out of its place, where one that was never mounted stands until it is put back.
    pub fn take(&mut self, a: ServerId) -> Party
        requires { a.0 < SERVERS }
        ensures party { slice_get self.old.parties a.0 ≡ Some result }
        ensures server { server_of result ≡ servers_at self.old a.0 }
        ensures id { result.server.id ≡ a.0 }
        ensures recovery { result.recovery ≡ recovering_by self.old a.0 }
        ensures fits { IsRecovery self.old.segments a.0 result.recovery }
        ensures others { OthersStay self.old self.new a.0 }
    {
        replace(&mut self.list[usize::from(a.0)], first_party(self.alloc, a))
    }

    /// Puts a party of a number into its place.
    pub fn put(&mut self, a: ServerId, party: Party)
        requires server { a.0 < SERVERS }
        requires id { party.server.id ≡ a.0 }
        requires fits { IsRecovery self.old.segments a.0 party.recovery }
        ensures put { (before : State) → OthersStay before self.old a.0 → IsPut before self.new a.0 party }
        ensures becomes { (before : State) → OthersStay before self.old a.0 → Becomes before self.new a.0 (server_of party) }
        ensures keeps { (before : State) → OthersStay before self.old a.0 → IsSomeAnd (slice_get before.parties a.0) (λ old. PartyKeeps old party) → Keeps before self.new }
    {
        self.list[usize::from(a.0)] = party;
    }

    /// The recovery that a server or the host carries out, if any: it is of this disk, and of another server's log.
    pub fn recovery(&self, by: ServerId) -> Option<&Demon>
        requires { IsTrue (is_server by.0 || by.0 == host_party) }
        ensures is { option_copied result ≡ recovering_by self.now by.0 }
        ensures core { recovery_in (option_copied result) ≡ (servers_at self.now by.0).recovery }
        ensures fits { IsRecovery self.now.segments by.0 (option_copied result) }
    {
        if by == ServerId::HOST {
            self.host.as_ref()
        } else {
            self.get(by).recovery.as_ref()
        }
    }

    /// Whether a server is held.
    pub fn is_held(&self, a: ServerId) -> bool
        requires { a.0 < SERVERS }
        ensures { result ≡ held_at self.now a.0 }
    {
        self.held[usize::from(a.0)]
    }

    /// A server, 0 to 15, is held from now on, or no longer.
    pub fn hold(&mut self, a: ServerId, held: bool)
        requires { a.0 < SERVERS }
        ensures held { held_at self.new ≡ put (held_at self.old) a.0 held }
        ensures servers { servers_at self.new ≡ servers_at self.old }
        ensures segments { self.new.segments ≡ self.old.segments }
        ensures keeps { Keeps self.old self.new }
    {
        self.held[usize::from(a.0)] = held;
    }
}

/// Whether it is the number of a server, and not the host's.
pub fn is_server(a: ServerId) -> bool
    ensures { result ≡ is_server a.0 }
{
    usize::from(a.0) < SERVERS
}
