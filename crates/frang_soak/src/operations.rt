// The operation that a draw gives.
ghost use Rattle.std.specs.Prelude.{◌≡◌, ◌<◌, IfOk};
ghost use Rattle.frang_base.specs.declared.op.Op.TheVariants as op;
ghost use Rattle.frang_soak.specs.Scripts.{drawn_op, in_directory, op_of_kind};

use crate::names::in_directory;
use frang_base::{NoMemory, Op, Path};
use std::alloc::Global;

/// The operation that a draw gives a server, which is less than 100.
pub(crate) fn drawn_op(alloc: Global, server: u8, draw: u64) -> Result<Op, NoMemory>
    requires { server < 100 }
    ensures { IfOk result (λ op. op ≡ drawn_op server draw) }
{
    let file = (draw / 8 % 40) as u8;
    let bytes = 1 + (draw / 512 % 9000) as u32;
    op_of_kind(alloc, (draw % 8) as u8, server, file, bytes)
}

fn op_of_kind(alloc: Global, kind: u8, server: u8, file: u8, bytes: u32) -> Result<Op, NoMemory>
    requires server { server < 100 }
    requires file { file < 100 }
    ensures { IfOk result (λ op. op ≡ op_of_kind kind server file bytes) }
{
    match kind {
        0 | 1 => create(alloc, server, file),
        2 => unlink(alloc, server, file),
        3 => rename(alloc, server, file),
        4 => fill(alloc, server, file, bytes),
        5 => truncate(alloc, server, file),
        6 => link(alloc, server, file),
        _ => Ok(Op::Sync),
    }
}

// The path of a file by its first name.
fn file_path(alloc: Global, server: u8, file: u8) -> Result<Path, NoMemory>
    requires server { server < 100 }
    requires file { file < 100 }
    ensures { IfOk result (λ path. path ≡ in_directory server 102 file) }
{
    in_directory(alloc, server, b'f', file)
}

fn create(alloc: Global, server: u8, file: u8) -> Result<Op, NoMemory>
    requires server { server < 100 }
    requires file { file < 100 }
    ensures { IfOk result (λ made. made ≡ op.Create (in_directory server 102 file)) }
{
    let path = file_path(alloc, server, file)?;
    Ok(Op::Create { path })
}

fn unlink(alloc: Global, server: u8, file: u8) -> Result<Op, NoMemory>
    requires server { server < 100 }
    requires file { file < 100 }
    ensures { IfOk result (λ made. made ≡ op.Unlink (in_directory server 102 file)) }
{
    let path = file_path(alloc, server, file)?;
    Ok(Op::Unlink { path })
}

fn rename(alloc: Global, server: u8, file: u8) -> Result<Op, NoMemory>
    requires server { server < 100 }
    requires file { file < 100 }
    ensures { IfOk result (λ made. made ≡ op.Rename (in_directory server 102 file)
        (in_directory server 103 file)) }
{
    let path = file_path(alloc, server, file)?;
    let to = in_directory(alloc, server, b'g', file)?;
    Ok(Op::Rename { path, to })
}

fn fill(alloc: Global, server: u8, file: u8, bytes: u32) -> Result<Op, NoMemory>
    requires server { server < 100 }
    requires file { file < 100 }
    ensures { IfOk result (λ made. made ≡ op.Fill (in_directory server 102 file) 0 bytes file) }
{
    let path = file_path(alloc, server, file)?;
    Ok(Op::Fill {
        path,
        off: 0,
        len: bytes,
        byte: file,
    })
}

fn truncate(alloc: Global, server: u8, file: u8) -> Result<Op, NoMemory>
    requires server { server < 100 }
    requires file { file < 100 }
    ensures { IfOk result (λ made. made ≡ op.Truncate (in_directory server 102 file) 0) }
{
    let path = file_path(alloc, server, file)?;
    Ok(Op::Truncate { path, len: 0 })
}

fn link(alloc: Global, server: u8, file: u8) -> Result<Op, NoMemory>
    requires server { server < 100 }
    requires file { file < 100 }
    ensures { IfOk result (λ made. made ≡ op.Link (in_directory server 102 file)
        (in_directory server 104 file)) }
{
    let path = file_path(alloc, server, file)?;
    let to = in_directory(alloc, server, b'h', file)?;
    Ok(Op::Link { path, to })
}
