// The script of a soak.
ghost use Rattle.std.specs.Prelude.{◌≡◌, ◌∷◌, [], ◌++◌, ◌<◌, ◌≤◌, ◌+◌, ◌%◌, IfOk, OnOk};
ghost use Rattle.frang_soak.specs.Scripts.{closing_lines, drawn_line, drawn_lines, drawn_op, lines_at, mkdir_line, mount_line, opening_lines, server_line, soak_script, unmount_line};

use crate::draws::{draw_of, next_state};
use crate::lines::{push_host_line, push_server_line};
use crate::names::directory;
use crate::operations::drawn_op;
use frang_base::{HostOp, NoMemory, Op, Script};
use std::alloc::Global;

// The servers, numbered from 0, each in a directory of its own.
const SOAK_SERVERS: u8 = 4;

// The lines by draws.
const DRAWN_LINES: u32 = 4000;

/// The script of a soak by a generator that begins with `n`: four servers, each in a directory of its own, mount, do 4,000
/// drawn operations in turn and unmount. It has 4,014 lines.
pub fn soak_script(alloc: Global, n: u64) -> Result<Script, NoMemory>
    ensures { IfOk result (λ script. script ≡ soak_script n) }
{
    let mut script = Script::new(alloc);
    push_all(alloc, &mut script, n)?;
    Ok(script)
}

fn push_all(alloc: Global, script: &mut Script, n: u64) -> Result<(), NoMemory>
    ensures { OnOk result (script.new ≡ script.old ++ soak_script n) }
{
    push_opening(alloc, script)?;
    push_drawn(alloc, script, n, DRAWN_LINES)?;
    push_closing(script)
}

// Each server mounts, then makes its directory.
fn push_opening(alloc: Global, script: &mut Script) -> Result<(), NoMemory>
    ensures { OnOk result (script.new ≡ script.old ++ opening_lines) }
{
    push_mounts(script)?;
    push_mkdirs(alloc, script)?;
    push_host_line(script, 9, HostOp::Barrier)
}

// Each server unmounts.
fn push_closing(script: &mut Script) -> Result<(), NoMemory>
    ensures { OnOk result (script.new ≡ script.old ++ closing_lines) }
{
    push_host_line(script, 4010, HostOp::Barrier)?;
    push_unmounts(script)
}

fn push_mounts(script: &mut Script) -> Result<(), NoMemory>
    ensures { OnOk result (script.new ≡ script.old ++ lines_at mount_line 4) }
{
    for server in 0..SOAK_SERVERS {
        push_mount(script, server)?;
    }
    Ok(())
}

fn push_mount(script: &mut Script, server: u8) -> Result<(), NoMemory>
    ensures { OnOk result (script.new ≡ script.old ++ mount_line server ∷ []) }
{
    push_server_line(script, 1 + u32::from(server), server, Op::Mount)
}

fn push_mkdirs(alloc: Global, script: &mut Script) -> Result<(), NoMemory>
    ensures { OnOk result (script.new ≡ script.old ++ lines_at mkdir_line 4) }
{
    for server in 0..SOAK_SERVERS {
        push_mkdir(alloc, script, server)?;
    }
    Ok(())
}

fn push_mkdir(alloc: Global, script: &mut Script, server: u8) -> Result<(), NoMemory>
    requires { server < 100 }
    ensures { OnOk result (script.new ≡ script.old ++ mkdir_line server ∷ []) }
{
    let path = directory(alloc, server)?;
    push_server_line(script, 5 + u32::from(server), server, Op::Mkdir { path })
}

fn push_unmounts(script: &mut Script) -> Result<(), NoMemory>
    ensures { OnOk result (script.new ≡ script.old ++ lines_at unmount_line 4) }
{
    for server in 0..SOAK_SERVERS {
        push_unmount(script, server)?;
    }
    Ok(())
}

fn push_unmount(script: &mut Script, server: u8) -> Result<(), NoMemory>
    ensures { OnOk result (script.new ≡ script.old ++ unmount_line server ∷ []) }
{
    push_server_line(script, 4011 + u32::from(server), server, Op::Unmount)
}

// So many lines by the draws of a generator that begins with this state, at most 4,000.
fn push_drawn(alloc: Global, script: &mut Script, n: u64, count: u32) -> Result<(), NoMemory>
    requires { count ≤ 4000 }
    ensures { OnOk result (script.new ≡ script.old ++ drawn_lines n count) }
{
    let mut state = n;
    for place in 0..count {
        state = next_state(state);
        push_drawn_line(alloc, script, place, draw_of(state))?;
    }
    Ok(())
}

// The line at a place by this draw.
fn push_drawn_line(
    alloc: Global,
    script: &mut Script,
    place: u32,
    draw: u64,
) -> Result<(), NoMemory>
    requires { place < 4000 }
    ensures { OnOk result (script.new ≡ script.old ++ server_line (10 + place) (place % 4) (drawn_op (place % 4) draw) ∷ []) }
{
    let server = (place % u32::from(SOAK_SERVERS)) as u8;
    let op = drawn_op(alloc, server, draw)?;
    push_server_line(script, 10 + place, server, op)
}
