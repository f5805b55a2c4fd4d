// What a line at its stage asks of locks, and which block it has cleared.
ghost use Rattle.std.specs.Prelude.{◌≡◌, Option};
ghost use Rattle.kept_plans.specs.declared.kept.KeptPlan.{KeptPlan as Plan};
ghost use Rattle.core_definitions.specs.Lines as core;
ghost use Rattle.core_definitions.specs.Servers.{Server as TheServer};
ghost use Rattle.line_stages.specs.Asked.{asked_of, asked_so, cleared_of};
ghost use Rattle.line_stages.specs.Stages.{IsStage, asked_next, cleared_next};

use crate::stage::Stage;
use frang_base::{LockId, Mode, ServerId};
use lock_table::LockTable;
use server_core::Server;

/// The lock for which a server's line at this stage asks next: the least of its set that lacks, where its wish isn't noted in this mode or no holder conflicts. `None` where there is none.
pub fn asked_next(
    stage: &Option<Stage>,
    table: &LockTable,
    server: &Server,
) -> Option<(LockId, Mode)>
    ensures { (plan : Option Plan) (at : Option core.Stage) → IsStage plan server.now.server stage.now at → result ≡ asked_next table.now.locks server.now.id at }
{
    lock_asked(stage, table, server)
}

fn lock_asked(stage: &Option<Stage>, table: &LockTable, server: &Server) -> Option<(LockId, Mode)>
    ensures { result ≡ asked_of table.now.locks server.now.id stage.now }
{
    match stage {
        Some(Stage::Asking { lock, mode }) => asked_so(table, server.id(), *lock, *mode),
        _ => None,
    }
}

fn asked_so(table: &LockTable, server: ServerId, lock: LockId, mode: Mode) -> Option<(LockId, Mode)>
    ensures { result ≡ asked_so table.now.locks server.0 (lock, mode) }
{
    if !table.is_wished(server, lock, mode) || table.is_free(server, lock, mode) {
        Some((lock, mode))
    } else {
        None
    }
}

/// The block that a line at this stage has cleared. `None` where it has none cleared.
pub fn cleared_next(stage: &Option<Stage>) -> Option<u32>
    ensures { (at : Option core.Stage) (plan : Option Plan) (server : TheServer) → IsStage plan server stage.now at → result ≡ cleared_next at }
{
    block_cleared(stage)
}

fn block_cleared(stage: &Option<Stage>) -> Option<u32>
    ensures { result ≡ cleared_of stage.now }
{
    match stage {
        Some(Stage::Clearing { block }) => Some(*block),
        _ => None,
    }
}
