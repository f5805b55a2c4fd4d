// Said lines as bytes.
ghost use Rattle.std.specs.Prelude.{◌≡◌, ◌++◌, ◌∷◌, [], OnOk, OnErr};
ghost use Rattle.tree_definitions.specs.SaidLines.{keeps_text, who_text, run_line, node_text, said_text, said_line};

use crate::number::{write_count, write_number, write_numbered, write_point, write_words};
use crate::reply::write_reply;
use frang_base::{NoMemory, OpNo, Reply, Said, ServerId};
use std::alloc::Global;

// A server's number, or `-` for the host.
fn write_who(server: ServerId, to: &mut Vec<u8>) -> Result<(), NoMemory>
    ensures { OnOk result (to.new.items ≡ to.old.items ++ who_text server.0) }
{
    if server.0 == ServerId::HOST.0 {
        write_words(b"-", to)
    } else {
        write_number(u64::from(server.0), to)
    }
}

fn write_run_line(op: OpNo, to: &mut Vec<u8>) -> Result<(), NoMemory>
    ensures { OnOk result (to.new.items ≡ to.old.items ++ run_line op.0) }
{
    write_point(u64::from(op.run()), u64::from(op.line()), to)
}

#[tactic(auto, unfolding(tree_definitions::specs::SaidLines::keeps_text))]
fn write_keeps(keeps: OpNo, to: &mut Vec<u8>) -> Result<(), NoMemory>
    ensures { OnOk result (to.new.items ≡ to.old.items ++ keeps_text keeps.0) }
{
    write_words(b" keeps ", to)?;
    write_run_line(keeps, to)
}

fn write_node(kind: u8, size: u32, links: u32, to: &mut Vec<u8>) -> Result<(), NoMemory>
    ensures { OnOk result (to.new.items ≡ to.old.items ++ node_text kind size links) }
{
    if kind == 1 {
        write_words(b"file", to)?;
        write_count(size, to)?;
        write_count(links, to)
    } else if kind == 2 {
        write_words(b"dir", to)?;
        write_count(size, to)
    } else {
        write_words(b"link", to)?;
        write_count(size, to)
    }
}

fn write_answer(
    line: u32,
    server: ServerId,
    reply: &Reply,
    to: &mut Vec<u8>,
) -> Result<(), NoMemory>
    ensures { OnOk result (to.new.items ≡ to.old.items ++ said_text (Said.Answer server line reply.now)) }
{
    write_number(u64::from(line), to)?;
    to.push(b' ')?;
    write_who(server, to)?;
    to.push(b' ')?;
    write_reply(reply, to)
}

fn write_recovered(server: ServerId, keeps: OpNo, to: &mut Vec<u8>) -> Result<(), NoMemory>
    ensures { OnOk result (to.new.items ≡ to.old.items ++ said_text (Said.Recovered server keeps)) }
{
    write_numbered(b"! recovered ", u32::from(server.0), to)?;
    write_keeps(keeps, to)
}

fn write_text(said: &Said, to: &mut Vec<u8>) -> Result<(), NoMemory>
    ensures { OnOk result (to.new.items ≡ to.old.items ++ said_text said.now) }
{
    match said {
        Said::Answer {
            server,
            line,
            reply,
        } => write_answer(*line, *server, reply, to),
        Said::Dead { server } => write_numbered(b"! dead ", u32::from(server.0), to),
        Said::Recovering { server, by } => {
            write_numbered(b"! recovering ", u32::from(server.0), to)?;
            write_words(b" by ", to)?;
            write_who(*by, to)
        }
        Said::Recovered { server, keeps } => write_recovered(*server, *keeps, to),
        Said::Renewed { server } => { write_numbered(b"! renewed ", u32::from(server.0), to) }
        Said::Node {
            path,
            kind,
            size,
            links,
        } => {
            write_words(b"= ", to)?;
            write_words(path.as_slice(), to)?;
            to.push(b' ')?;
            write_node(*kind, *size, *links, to)
        }
        Said::Redo { op } => {
            write_words(b"# ", to)?;
            write_run_line(*op, to)
        }
        Said::Backup { line } => write_numbered(b"! backup ", *line, to),
        Said::Locks { line } => write_numbered(b"! locks ", *line, to),
        Said::Shown(text) => write_words(text.as_slice(), to),
        Said::End => write_words(b"! end", to),
    }
}

/// Adds a line, with its line feed, at the end of `to`. After `NoMemory` nothing was added.
pub fn write_line(alloc: Global, said: &Said, to: &mut Vec<u8>) -> Result<(), NoMemory>
    ensures ok { OnOk result (to.new.items ≡ to.old.items ++ said_line said.now) }
    ensures err { OnErr result (to.new.items ≡ to.old.items) }
{
    let mut line = Vec::new(alloc);
    write_text(said, &mut line)?;
    line.push(b'\n')?;
    to.extend_from_slice(&line)?;
    Ok(())
}
