// Replies as bytes.
ghost use Rattle.std.specs.Prelude.{◌≡◌, ◌++◌, OnOk};
ghost use Rattle.tree_definitions.specs.SaidLines.{reply_word, contents_text, reply_text};

use crate::number::{
    write_after_blank, write_bytes, write_count, write_names, write_point, write_words,
};
use frang_base::{NoMemory, Reply};

/// The first words of a reply, before its numbers, names or bytes.
pub fn reply_word(reply: &Reply) -> &'static [u8]
    ensures { result.now ≡ reply_word reply.now }
{
    match reply {
        Reply::Ok => b"ok",
        Reply::Mounted => b"mounted",
        Reply::Shown(_) => b"data",
        Reply::File { .. } => b"file",
        Reply::Dir { .. } => b"dir",
        Reply::Symlink { .. } => b"link",
        Reply::Names(_) => b"names",
        Reply::Target(_) => b"target",
        Reply::Time { .. } => b"time",
        Reply::Exist => b"exist",
        Reply::NoEnt => b"noent",
        Reply::NotDir => b"notdir",
        Reply::IsDir => b"isdir",
        Reply::NotEmpty => b"notempty",
        Reply::Inval => b"inval",
        Reply::MLink => b"mlink",
        Reply::DirFull => b"dirfull",
        Reply::BadOffset => b"badoffset",
        Reply::TooBig => b"toobig",
        Reply::Loop => b"loop",
        Reply::NoInode => b"nospace inode",
        Reply::NoDirBlock => b"nospace dir",
        Reply::NoBlock { .. } => b"nospace data",
        Reply::NoLarge => b"nospace large",
        Reply::Down => b"down",
        Reply::Expired => b"expired",
        Reply::Io => b"io",
        Reply::Already => b"already",
    }
}

// What follows the first words.
fn write_contents(reply: &Reply, to: &mut Vec<u8>) -> Result<(), NoMemory>
    ensures { OnOk result (to.new.items ≡ to.old.items ++ contents_text reply.now) }
{
    match reply {
        Reply::Shown(bytes) => write_bytes(bytes.as_slice(), to),
        Reply::File { size, links } => {
            write_count(*size, to)?;
            write_count(*links, to)
        }
        Reply::Dir { entries } => write_count(*entries, to),
        Reply::Symlink { len } => write_count(*len, to),
        Reply::Names(names) => write_names(names.as_slice(), to),
        Reply::Target(target) => write_after_blank(target.as_slice(), to),
        Reply::Time { run, tick } => {
            to.push(b' ')?;
            write_point(u64::from(*run), u64::from(*tick), to)
        }
        Reply::NoBlock { m } => write_count(*m, to),
        _ => Ok(()),
    }
}

// Adds a reply.
pub fn write_reply(reply: &Reply, to: &mut Vec<u8>) -> Result<(), NoMemory>
    ensures { OnOk result (to.new.items ≡ to.old.items ++ reply_text reply.now) }
{
    write_words(reply_word(reply), to)?;
    write_contents(reply, to)
}
