// The sixteen servers in a list.
ghost use Rattle.std.specs.Prelude.{◌≡◌, IfOk, map, ◌&&◌, is_some, None, []};
ghost use Rattle.std.specs.List.{All, list_all, list_any};
ghost use Rattle.core_definitions.specs.Cores.{server_numbers};
ghost use Rattle.core_definitions.specs.EndGuards.{is_unsettled};
ghost use Rattle.core_definitions.specs.Servers.{first_server, is_off, is_up, wanting_all_up};
ghost use Rattle.world_parties.specs.States.{oldest_of, server_of};

use crate::party::Party;
use frang_base::limits::SERVERS;
use frang_base::{NoMemory, ServerId};
use server_core::Server;
use std::alloc::Global;

/// One of them, with nothing in memory.
pub(crate) fn first_party(alloc: Global, a: ServerId) -> Party
    ensures server { server_of result ≡ first_server }
    ensures id { result.server.id ≡ a.0 }
    ensures recovery { result.recovery ≡ None }
    ensures flags { result.server.flying ≡ [] }
    ensures plan { result.plan ≡ None }
    ensures oldest { oldest_of result ≡ None }
{
    let mut server = Server::new(alloc, a);
    // It is off already: what is known of it behind this is that none of its sectors is flagged.
    server.turn_off();
    Party {
        server,
        recovery: None,
        plan: None,
        oldest: None,
    }
}

/// Sixteen servers with nothing in memory.
pub(crate) fn first_parties(alloc: Global) -> Result<Vec<Party>, NoMemory>
    ensures servers { IfOk result (λ parties. map server_of parties.items ≡ map (λ a. first_server) server_numbers) }
    ensures placed { IfOk result (λ parties. map (λ party. party.server.id) parties.items ≡ server_numbers) }
    ensures recoveries { IfOk result (λ parties. All (λ party. party.recovery ≡ None) parties.items) }
    ensures flags { IfOk result (λ parties. All (λ party. party.server.flying ≡ []) parties.items) }
    ensures plans { IfOk result (λ parties. All (λ party. party.plan ≡ None) parties.items) }
    ensures oldest { IfOk result (λ parties. All (λ party. oldest_of party ≡ None) parties.items) }
{
    let mut parties = Vec::new(alloc);
    for a in 0..SERVERS as u8 {
        parties.push(first_party(alloc, ServerId(a)))?;
    }
    Ok(parties)
}

/// Whether one of these is up.
pub(crate) fn is_any_up(parties: &[Party]) -> bool
    ensures { result ≡ list_any (λ party. is_up (server_of party).phase) parties.now }
{
    for party in parties {
        if party.server.is_up() {
            return true;
        }
    }
    false
}

// Whether it is stalled, doomed or dead.
fn is_unsettled(party: &Party) -> bool
    ensures { result ≡ is_unsettled (server_of party.now).phase }
{
    party.server.is_still() || party.server.is_doomed() || party.server.is_dead()
}

/// Whether one of these is stalled, doomed or dead.
pub(crate) fn is_any_unsettled(parties: &[Party]) -> bool
    ensures { result ≡ list_any (λ party. is_unsettled (server_of party).phase) parties.now }
{
    for party in parties {
        if is_unsettled(party) {
            return true;
        }
    }
    false
}

/// Whether all of these are off.
pub(crate) fn are_all_off(parties: &[Party]) -> bool
    ensures { result ≡ list_all (λ party. is_off (server_of party).phase) parties.now }
{
    for party in parties {
        if !party.server.is_off() {
            return false;
        }
    }
    true
}

// Whether it is up and has a recovery.
fn is_recovering(party: &Party) -> bool
    ensures { result ≡ (is_up (server_of party.now).phase && is_some (server_of party.now).recovery) }
{
    party.server.is_up() && party.recovery.is_some()
}

/// Whether one of these is up and has a recovery.
pub(crate) fn is_any_recovering(parties: &[Party]) -> bool
    ensures { result ≡ list_any (λ party. is_up (server_of party).phase && is_some (server_of party).recovery) parties.now }
{
    for party in parties {
        if is_recovering(party) {
            return true;
        }
    }
    false
}

/// Whether one of these marks is set.
pub(crate) fn is_any_set(marks: &[bool]) -> bool
    ensures { result ≡ list_any (λ mark. mark) marks.now }
{
    for mark in marks {
        if *mark {
            return true;
        }
    }
    false
}

/// All of these that are up want everything written.
pub(crate) fn want_all(parties: &mut [Party])
    ensures servers { map server_of parties.new ≡ map wanting_all_up (map server_of parties.old) }
    ensures placed { map (λ party. party.server.id) parties.new ≡ map (λ party. party.server.id) parties.old }
    ensures recoveries { map (λ party. party.recovery) parties.new ≡ map (λ party. party.recovery) parties.old }
    ensures flags { map (λ party. party.server.flying) parties.new ≡ map (λ party. party.server.flying) parties.old }
    ensures plans { map (λ party. party.plan) parties.new ≡ map (λ party. party.plan) parties.old }
    ensures oldest { map oldest_of parties.new ≡ map oldest_of parties.old }
{
    for i in 0..parties.len() {
        parties[i].want_all_if_up();
    }
}
