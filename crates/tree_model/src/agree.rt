// Whether two replies are equal: of the same word, with the same contents.
ghost use Rattle.std.specs.Prelude.{◌≡◌, nat_eq};
ghost use Rattle.std.specs.Cmp.Lexicographic.{pointwise};
ghost use Rattle.tree_definitions.specs.History.{shown_is, file_is, dir_is, link_is, names_are, target_is, time_is, no_block_is, contents_are, same_reply};

use frang_base::{Name, Reply, Text};
use reply_text::reply_word;

fn same_names(names: &[Name], others: &[Name]) -> bool
    ensures { result ≡ pointwise (pointwise nat_eq) names.now others.now }
{
    names == others
}

fn shown_is(bytes: &Text, reply: &Reply) -> bool
    ensures { result ≡ shown_is bytes.now reply.now }
{
    match reply {
        Reply::Shown(others) => bytes.as_slice() == others.as_slice(),
        _ => false,
    }
}

fn file_is(size: u32, links: u32, reply: &Reply) -> bool
    ensures { result ≡ file_is size links reply.now }
{
    match reply {
        Reply::File { size: s, links: l } => size == *s && links == *l,
        _ => false,
    }
}

fn dir_is(entries: u32, reply: &Reply) -> bool
    ensures { result ≡ dir_is entries reply.now }
{
    match reply {
        Reply::Dir { entries: n } => entries == *n,
        _ => false,
    }
}

fn link_is(len: u32, reply: &Reply) -> bool
    ensures { result ≡ link_is len reply.now }
{
    match reply {
        Reply::Symlink { len: n } => len == *n,
        _ => false,
    }
}

fn names_are(names: &[Name], reply: &Reply) -> bool
    ensures { result ≡ names_are names.now reply.now }
{
    match reply {
        Reply::Names(others) => same_names(names, others.as_slice()),
        _ => false,
    }
}

fn target_is(target: &Text, reply: &Reply) -> bool
    ensures { result ≡ target_is target.now reply.now }
{
    match reply {
        Reply::Target(other) => target.as_slice() == other.as_slice(),
        _ => false,
    }
}

fn time_is(run: u32, tick: u32, reply: &Reply) -> bool
    ensures { result ≡ time_is run tick reply.now }
{
    match reply {
        Reply::Time { run: r, tick: t } => run == *r && tick == *t,
        _ => false,
    }
}

fn no_block_is(m: u32, reply: &Reply) -> bool
    ensures { result ≡ no_block_is m reply.now }
{
    match reply {
        Reply::NoBlock { m: n } => m == *n,
        _ => false,
    }
}

fn contents_are(a: &Reply, b: &Reply) -> bool
    ensures { result ≡ contents_are a.now b.now }
{
    match a {
        Reply::Shown(bytes) => shown_is(bytes, b),
        Reply::File { size, links } => file_is(*size, *links, b),
        Reply::Dir { entries } => dir_is(*entries, b),
        Reply::Symlink { len } => link_is(*len, b),
        Reply::Names(names) => names_are(names.as_slice(), b),
        Reply::Target(target) => target_is(target, b),
        Reply::Time { run, tick } => time_is(*run, *tick, b),
        Reply::NoBlock { m } => no_block_is(*m, b),
        _ => true,
    }
}

/// Whether two replies are equal.
pub fn same_reply(a: &Reply, b: &Reply) -> bool
    ensures { result ≡ same_reply a.now b.now }
{
    reply_word(a) == reply_word(b) && contents_are(a, b)
}
