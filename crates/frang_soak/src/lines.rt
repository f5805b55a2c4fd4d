// Lines at the end of a script.
ghost use Rattle.std.specs.Prelude.{◌≡◌, ◌∷◌, [], ◌++◌, OnOk};
ghost use Rattle.frang_soak.specs.Scripts.{host_line, server_line};

use frang_base::{HostOp, Line, NoMemory, Op, Script, ServerId, What};

/// Adds a server's line.
pub(crate) fn push_server_line(
    script: &mut Script,
    number: u32,
    server: u8,
    op: Op,
) -> Result<(), NoMemory>
    ensures { OnOk result (script.new ≡ script.old ++ server_line number server op ∷ []) }
{
    script.push(Line {
        number,
        who: ServerId(server),
        what: What::Server(op),
    })
}

/// Adds a line of the host.
pub(crate) fn push_host_line(script: &mut Script, number: u32, op: HostOp) -> Result<(), NoMemory>
    ensures { OnOk result (script.new ≡ script.old ++ host_line number op ∷ []) }
{
    script.push(Line {
        number,
        who: ServerId::HOST,
        what: What::Host(op),
    })
}
