// A rebuilt table from which lists of silent servers are missing.
ghost use Rattle.std.specs.Prelude.{◌≡◌, ◌<◌, ◌≤◌, ℕ, Bool, false, IfOk, OnOk, OnErr, length, map, slice_index_or, slice_set};
ghost use Rattle.std.specs.List.{All};
ghost use Rattle.lock_definitions.specs.Servers.{server_bits};
ghost use Rattle.lock_definitions.specs.Calls.{serves};
ghost use Rattle.frang_base.specs.declared.sector.ServerId.{ServerId};
ghost use Rattle.lock_rebuild.specs.Guard.{is_silent, some_silent, is_one_of, may_grant, guarded_answer, guarded_want, spoken};

use frang_base::limits::SERVERS;
use frang_base::{LockId, Mode, NoMemory, ServerId};
use lock_table::{LockTable, Wanted};
use std::marker::Model;

/// A table from which the lists of silent servers are missing, seen as its locks and, for each server, whether it is silent. While one is,
/// it grants nothing that a server doesn't have, since a silent server may hold it.
#[derive(Drop)]
pub struct Guarded {
    table: LockTable,
    silent: [bool; SERVERS],
}

impl Model for Guarded {
    ghost use Rattle.std.specs.Prelude.{◌≡◌, length};
    ghost use Rattle.frang_base.specs.declared.limits.TheConstants.{SERVERS};
    ghost use Rattle.lock_rebuild.specs.Guard.{Guard};

    ghost Value = { Guard };

    ghost view = { λ guarded. record { locks = guarded.table.locks; silent = guarded.silent } };

    ghost invariant = { λ guarded. length guarded.silent ≡ SERVERS };
}

// Whether a lock that is held so serves one who wants it so.
fn serves(held: Option<Mode>, mode: Mode) -> bool
    ensures { result ≡ serves held mode }
{
    match (held, mode) {
        (None, _) | (Some(Mode::Shared), Mode::Sole) => false,
        (Some(Mode::Sole), _) | (Some(Mode::Shared), Mode::Shared) => true,
    }
}

// For each server, whether it is one of these.
fn silent_among(silent: &[ServerId]) -> [bool; SERVERS]
    requires { All (λ server. server.0 < SERVERS) silent.now }
    ensures long { length result ≡ SERVERS }
    ensures silent { (server : ℕ) → slice_index_or result server false ≡ is_one_of silent.now server }
{
    let mut among = [false; SERVERS];
    for server in silent {
        among[server.0 as usize] = true;
    }
    among
}

impl Guarded {
    /// Guards a table while these servers, each 0 to 15, are silent. It takes no memory.
    pub fn new(table: LockTable, silent: &[ServerId]) -> Result<Guarded, NoMemory>
        requires { All (λ server. server.0 < SERVERS) silent.now }
        ensures locks { IfOk result (λ guarded. guarded.locks ≡ table.locks) }
        ensures silent { IfOk result (λ guarded. (server : ℕ) → is_silent guarded server ≡ is_one_of silent.now server) }
    {
        Ok(Guarded {
            table,
            silent: silent_among(silent),
        })
    }

    // A bit for each silent server.
    #[tactic(auto, unfolding(lock_definitions::specs::Servers::server_bits))]
    fn silent_bits(&self) -> u32
        ensures { result ≡ server_bits (is_silent self.now) }
    {
        let mut bits = 0;
        for server in 0..SERVERS as u8 {
            if self.silent[server as usize] {
                bits |= 1 << server;
            }
        }
        bits
    }

    /// Whether some server is silent.
    #[tactic(auto, unfolding(lock_definitions::specs::Servers::any_server))]
    pub fn is_any_silent(&self) -> bool
        ensures { result ≡ some_silent self.now }
    {
        let mut some = false;
        for server in 0..SERVERS as u8 {
            some |= self.silent[server as usize];
        }
        some
    }

    // Whether a grant may be made.
    fn may_grant(&self, server: ServerId, lock: LockId, mode: Mode) -> bool
        ensures { result ≡ may_grant self.now server.0 lock mode }
    {
        !self.is_any_silent() || serves(self.table.held(server, lock), mode)
    }

    /// A server, 0 to 15, wants a lock in a mode. It is granted exactly where the table grants it and either no server is silent or the
    /// server holds the lock in that mode or sole. Else the server waits for the holders that conflict and for all silent servers; the wish
    /// is noted where a holder conflicts, and nothing is granted. After `NoMemory` all is as before.
    pub fn want(&mut self, server: ServerId, lock: LockId, mode: Mode) -> Result<Wanted, NoMemory>
        requires { server.0 < SERVERS }
        ensures answer { IfOk result (λ answer. answer ≡ guarded_answer self.old server.0 lock mode) }
        ensures ok { OnOk result (self.new.locks ≡ guarded_want self.old server.0 lock mode) }
        ensures err { OnErr result (self.new.locks ≡ self.old.locks) }
        ensures silent { self.new.silent ≡ self.old.silent }
    {
        let bits = self.silent_bits();
        if self.table.is_free(server, lock, mode) && !self.may_grant(server, lock, mode) {
            return Ok(Wanted::Wait { holders: bits });
        }
        match self.table.want(server, lock, mode)? {
            Wanted::Granted => Ok(Wanted::Granted),
            Wanted::Wait { holders } => Ok(Wanted::Wait {
                holders: holders | bits,
            }),
        }
    }

    /// A server isn't silent any more, since its log was recovered.
    pub fn cleared(&mut self, server: ServerId)
        ensures { self.new ≡ spoken self.old server.0 }
    {
        let at = server.0 as usize;
        if at < SERVERS {
            self.silent[at] = false;
        }
    }

    /// The table, once no server is silent.
    pub fn table(self) -> LockTable
        requires { some_silent self ≡ false }
        ensures { result.locks ≡ self.locks }
    {
        let Guarded { table, silent: _ } = self;
        table
    }
}
