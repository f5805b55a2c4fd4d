// What each said line shows: in which lane, as what, with which words.
use frang_base::{HostOp, Line, NoMemory, Op, OpNo, Reply, Said, ServerId, Text, What};
use std::alloc::Global;

/// A change of a lane's band, which goes on from a line.
#[derive(Clone, Copy, PartialEq, Eq)]
pub enum Band {
    Off,
    Up,
    Stalled,
    Dead,
    Recovery,
}

/// How an answer went, or that a line is none.
#[derive(Clone, Copy, PartialEq, Eq)]
pub enum Mark {
    Done,
    Refused,
    Failed,
    Notice,
}

/// What passes over all lanes.
#[derive(Clone, Copy, PartialEq, Eq)]
pub enum Passing {
    Nothing,
    Ticks,
    Barrier,
}

/// What a said line shows: the lane of a server or of the host, its mark, the band from there on where it changes, words where it has some, and
/// the lane of another server that takes part.
#[derive(Drop)]
pub struct Moment {
    pub who: ServerId,
    pub mark: Mark,
    pub band: Option<Band>,
    pub passing: Passing,
    pub words: Option<String>,
    pub other: Option<ServerId>,
}

fn mark_of(reply: &Reply) -> Mark {
    match reply {
        Reply::Io | Reply::Down | Reply::Expired => Mark::Failed,
        Reply::Ok
        | Reply::Mounted
        | Reply::Shown(_)
        | Reply::File { .. }
        | Reply::Dir { .. }
        | Reply::Symlink { .. }
        | Reply::Names(_)
        | Reply::Target(_)
        | Reply::Time { .. } => Mark::Done,
        _ => Mark::Refused,
    }
}

fn plain(who: ServerId, mark: Mark) -> Moment {
    Moment {
        who,
        mark,
        band: None,
        passing: Passing::Nothing,
        words: None,
        other: None,
    }
}

fn named(alloc: Global, who: ServerId, mark: Mark, words: &str) -> Result<Moment, NoMemory> {
    let mut moment = plain(who, mark);
    moment.words = Some(String::from_str(alloc, words)?);
    Ok(moment)
}

fn banded(alloc: Global, who: ServerId, band: Band, words: &str) -> Result<Moment, NoMemory> {
    let mut moment = named(alloc, who, Mark::Notice, words)?;
    moment.band = Some(band);
    Ok(moment)
}

// The answer of a server to an operation of its script.
fn operation(alloc: Global, who: ServerId, op: &Op, reply: &Reply) -> Result<Moment, NoMemory> {
    let mark = mark_of(reply);
    match (op, reply) {
        (Op::Unmount, Reply::Ok) => {
            let mut moment = named(alloc, who, mark, "unmount")?;
            moment.band = Some(Band::Off);
            Ok(moment)
        }
        (Op::Stall, Reply::Ok) => {
            let mut moment = named(alloc, who, mark, "stall")?;
            moment.band = Some(Band::Stalled);
            Ok(moment)
        }
        (Op::Sync, Reply::Ok) => named(alloc, who, mark, "sync"),
        (Op::CrashAt { .. }, Reply::Ok) => named(alloc, who, mark, "crash"),
        (Op::CutAt { .. }, Reply::Ok) => named(alloc, who, mark, "cut"),
        _ => Ok(plain(who, mark)),
    }
}

// The answer of the host to one of its lines.
fn hosted(alloc: Global, who: ServerId, op: &HostOp) -> Result<Moment, NoMemory> {
    match op {
        HostOp::Barrier => {
            let mut moment = named(alloc, who, Mark::Done, "barrier")?;
            moment.passing = Passing::Barrier;
            Ok(moment)
        }
        HostOp::Tick { n } => {
            let mut moment = plain(who, Mark::Done);
            moment.words = Some(format!(in alloc; "tick {n}")?);
            moment.passing = Passing::Ticks;
            Ok(moment)
        }
        HostOp::Halt => named(alloc, who, Mark::Done, "halt"),
    }
}

// An answer: by the script's line where it is known.
fn answer(
    alloc: Global,
    who: ServerId,
    line: Option<&Line>,
    reply: &Reply,
) -> Result<Moment, NoMemory> {
    if let Reply::Mounted = reply {
        let mut moment = named(alloc, who, Mark::Done, "mount")?;
        moment.band = Some(Band::Up);
        return Ok(moment);
    }
    match line {
        Some(line) => match &line.what {
            What::Server(op) => operation(alloc, who, op, reply),
            What::Host(op) => hosted(alloc, who, op),
        },
        None => Ok(plain(who, mark_of(reply))),
    }
}

// A recovery begins.
fn recovering(alloc: Global, server: ServerId, by: ServerId) -> Result<Moment, NoMemory> {
    let words = if by == ServerId::HOST {
        String::from_str(alloc, "by host")?
    } else {
        let number = by.0;
        format!(in alloc; "by {number}")?
    };
    let mut moment = plain(server, Mark::Notice);
    moment.words = Some(words);
    moment.band = Some(Band::Recovery);
    moment.other = Some(by);
    Ok(moment)
}

// A recovery is done, and has kept the operations up to a line.
fn recovered(alloc: Global, server: ServerId, kept: OpNo) -> Result<Moment, NoMemory> {
    let words = if kept.0 == 0 {
        String::from_str(alloc, "keeps none")?
    } else {
        let line = kept.line();
        format!(in alloc; "keeps to {line}")?
    };
    let mut moment = plain(server, Mark::Notice);
    moment.words = Some(words);
    moment.band = Some(Band::Off);
    Ok(moment)
}

// A line of the tree, of which the root's is the first.
fn node(alloc: Global, path: &Text) -> Result<Moment, NoMemory> {
    if path.len() == 1 {
        named(alloc, ServerId::HOST, Mark::Notice, "tree")
    } else {
        Ok(plain(ServerId::HOST, Mark::Notice))
    }
}

/// What a said line shows, with the line of the script that it answers, where it is an answer and the script is known.
pub fn moment_of(alloc: Global, said: &Said, line: Option<&Line>) -> Result<Moment, NoMemory> {
    match said {
        Said::Answer { server, reply, .. } => answer(alloc, *server, line, reply),
        Said::Dead { server } => banded(alloc, *server, Band::Dead, "dead"),
        Said::Recovering { server, by } => recovering(alloc, *server, *by),
        Said::Recovered { server, keeps } => recovered(alloc, *server, *keeps),
        Said::Renewed { server } => banded(alloc, *server, Band::Up, "renewed"),
        Said::Backup { .. } => named(alloc, ServerId::HOST, Mark::Notice, "backup"),
        Said::Locks { .. } => named(alloc, ServerId::HOST, Mark::Notice, "locks"),
        Said::End => named(alloc, ServerId::HOST, Mark::Notice, "end"),
        Said::Node { path, .. } => node(alloc, path),
        Said::Redo { .. } | Said::Shown(_) => Ok(plain(ServerId::HOST, Mark::Notice)),
    }
}
