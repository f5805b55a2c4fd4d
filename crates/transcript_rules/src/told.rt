// A script with the lines said so far: which line may be said next, and what it tells.
ghost use Rattle.std.specs.Prelude.{◌≡◌, ◌↔◌, ◌<◌, ◌+◌, ◌&&◌, ◌||◌, not, true, false, Some, IfOk, IfSome, OnOk, IsTrue, length, is_none, take};
ghost use Rattle.std.specs.List.{list_all, list_any, slice_get};
ghost use Rattle.std.specs.Option.{option_copied};
ghost use Rattle.frang_base.specs.declared.said.Said.{Said as TheSaid};
ghost use Rattle.frang_base.specs.declared.said.Said.TheVariants as said;
ghost use Rattle.tree_definitions.specs.History.{Opening};
ghost use Rattle.tree_definitions.specs.Live.{line_of};
ghost use Rattle.tree_definitions.specs.Transcript.{MaySay, all_settled, answers_next, are_answered, goes_on, is_halt, is_over, is_settled, lines_before, lines_for, may_be_recovered, may_be_renewed, may_die_now, may_recover, may_reply, next_line, nodes_said};
ghost use Rattle.transcript_rules.specs.Parties.{phase_of};
ghost use Rattle.transcript_rules.specs.Waiting.{lets};
ghost use Rattle.transcript_rules.specs.Tells.{AscendFrom, HasTree, HasTreeAt, IsParty, MayGoOn, Steps, StepsEnd, StepsNode, TellsNobody, TellsNode, TellsOf, before, granted_faults, onward};

use crate::breach::Breach;
use crate::phases::{
    Party, Phase, asks_crash, is_dead, is_in_mount, is_ok, is_settled, is_stalled, is_up,
};
use crate::waiting::{behind_next, next_own, next_waiting};
use frang_base::limits::SERVERS;
use frang_base::{HostOp, Line, NoMemory, OpNo, Reply, Said, ServerId, Text, What};
use std::alloc::Global;
use std::collections::BTreeSet;
use std::marker::Model;

// How many parties there may be, by the numbers that one may have.
const PARTIES: usize = 256;

/// A script with the lines said so far, each of which might be said, seen as the script, whether faults are granted, all lines, and how many
/// of them are said so far.
#[derive(Drop)]
pub struct Told<'s> {
    script: &'s [Line],
    granted: bool,
    saids: &'s [Said],
    place: usize,
    parties: Vec<Party>,
    answered: BTreeSet<u32>,
    // Places of the script before which no line waits: of the host, and of any party.
    hosts: usize,
    all: usize,
    over: bool,
    begun: bool,
    nodes: usize,
}

impl<'s> Model for Told<'s> {
    ghost use Rattle.std.specs.Prelude.{take};
    ghost use Rattle.transcript_rules.specs.Parties.{phase_of};
    ghost use Rattle.transcript_rules.specs.Waiting.{lets};
    ghost use Rattle.transcript_rules.specs.Tells.{SoFar, Tells};

    ghost Value = { SoFar };

    ghost view = { λ t. record { script = t.script.now; granted = t.granted; saids = t.saids.now; place = t.place } };

    ghost invariant = { λ t. Tells t.script.now t.granted (take t.place t.saids.now) t.parties.items t.answered t.hosts t.all t.over t.begun t.nodes };
}

fn is_halt(what: &What) -> bool
    ensures { result ≡ is_halt what.now }
{
    matches!(what, What::Host(HostOp::Halt))
}

// Whether it is over, once a line is answered that asks so.
fn ends_by(over: bool, what: &What) -> bool
    ensures { result ≡ (over || is_halt what.now) }
{
    over || is_halt(what)
}

// Whether the first line that waits, if any does, lets a number be asked for.
fn lets(line: Option<&Line>, number: u32) -> bool
    ensures { result ≡ lets (option_copied line.entry) number }
{
    match line {
        Some(line) => number <= line.number,
        None => true,
    }
}

// The line at a place.
fn line_at(script: &[Line], place: usize) -> Option<&Line>
    ensures { option_copied result ≡ slice_get script.now place }
{
    script.get(place)
}

// Whether all of these parties are neither stalled nor dead.
fn are_all_settled(parties: &[Party]) -> bool
    ensures { result ≡ list_all (λ p. is_settled (phase_of p.phase)) parties.now }
{
    parties.iter().all(|party| is_settled(party.phase))
}

// Whether all servers are, by what is told of each party.
fn are_servers_settled(parties: &[Party]) -> bool
    requires { length parties.now ≡ 256 }
    ensures { result ≡ list_all (λ p. is_settled (phase_of p.phase)) (take 16 parties.now) }
{
    are_all_settled(&parties[..SERVERS])
}

// Whether the tree may be said: it isn't over, all is answered, and no server is stalled or dead.
fn may_end_by(over: bool, answered: bool, settled: bool) -> bool
    ensures { result ≡ (not over && answered && settled) }
{
    !over && answered && settled
}

// Whether a line of the tree is this one.
fn is_node_of(line: &Said, path: &Text, kind: u8, size: u32, links: u32) -> bool
    ensures { IsTrue result ↔ (line.now ≡ said.Node path.now kind size links) }
{
    match line {
        Said::Node {
            path: other,
            kind: k,
            size: s,
            links: l,
        } => path.as_slice() == other.as_slice() && kind == *k && size == *s && links == *l,
        _ => false,
    }
}

impl<'s> Told<'s> {
    /// Nothing has been said of a script, whose numbers ascend; these lines are to be said.
    pub fn new(
        alloc: Global,
        script: &'s [Line],
        granted: bool,
        saids: &'s [Said],
    ) -> Result<Told<'s>, NoMemory>
        requires { AscendFrom 0 script.now }
        ensures { IfOk result (λ t. t ≡ record { script = script.now; granted = granted; saids = saids.now; place = 0 }) }
    {
        let parties = vec![in alloc; Party::FIRST; PARTIES]?;
        Ok(Told {
            script,
            granted,
            saids,
            place: 0,
            parties,
            answered: BTreeSet::new(alloc),
            hosts: 0,
            all: 0,
            over: false,
            begun: false,
            nodes: 0,
        })
    }

    // What is told of a party.
    fn party(&self, who: ServerId) -> Party
        ensures { IsParty self.now.script self.now.granted (before self.now) who.0 result }
    {
        self.parties[usize::from(who.0)]
    }

    // The next line of a party.
    fn next_line(&mut self, who: ServerId) -> Option<&'s Line>
        ensures same { self.new ≡ self.old }
        ensures next { option_copied result ≡ next_line who.0 self.old.script (before self.old) }
        ensures found { IfSome (option_copied result) (λ line. line_of self.old.script line.number ≡ Some line) }
    {
        let party = self.party(who);
        let next = next_own(self.script, who, party.next);
        self.parties[usize::from(who.0)] = party.waits_from(next);
        line_at(self.script, next)
    }

    // Whether no line of the host, or of any party, waits before a number.
    fn lets_host(&mut self, number: u32) -> bool
        ensures same { self.new ≡ self.old }
        ensures is { result ≡ are_answered (lines_before number (lines_for 255 self.old.script)) (before self.old) }
    {
        self.hosts = next_waiting(self.script, true, &self.answered, self.hosts);
        lets(line_at(self.script, self.hosts), number)
    }

    fn lets_all(&mut self, number: u32) -> bool
        ensures same { self.new ≡ self.old }
        ensures is { result ≡ are_answered (lines_before number self.old.script) (before self.old) }
    {
        self.all = next_waiting(self.script, false, &self.answered, self.all);
        lets(line_at(self.script, self.all), number)
    }

    // Whether every line is answered.
    fn is_answered(&mut self) -> bool
        ensures same { self.new ≡ self.old }
        ensures is { result ≡ are_answered self.old.script (before self.old) }
    {
        self.all = next_waiting(self.script, false, &self.answered, self.all);
        line_at(self.script, self.all).is_none()
    }

    // Whether answers, deaths and recoveries may be said.
    fn goes_on(&self) -> bool
        ensures { result ≡ goes_on self.now.script (before self.now) }
    {
        !self.over && !self.begun
    }

    // Whether a party may reply so to one of its lines.
    fn may_reply(&mut self, who: ServerId, number: u32, what: &What, reply: &Reply) -> bool
        ensures same { self.new ≡ self.old }
        ensures is { result ≡ may_reply self.old.script (granted_faults self.old.granted) (before self.old) who.0 number what.now reply.now }
    {
        match what {
            What::Host(_) => is_ok(reply) && self.lets_all(number),
            What::Server(op) => {
                self.lets_host(number) && self.party(who).may_answer(self.granted, op, reply)
            }
        }
    }

    // Whether no server is stalled or dead.
    fn are_settled(&self) -> bool
        ensures { result ≡ all_settled self.now.script (granted_faults self.now.granted) (before self.now) }
    {
        are_servers_settled(&self.parties)
    }

    // Takes an answer to a line.
    fn take_answer(&mut self, who: ServerId, line: &Line, reply: &Reply) -> Result<(), NoMemory>
        requires next { slice_get self.old.saids self.old.place ≡ Some (said.Answer who line.now.number reply.now) }
        requires line { line_of self.old.script line.now.number ≡ Some line.now }
        ensures { OnOk result (self.new ≡ onward self.old) }
    {
        let party = self.party(who);
        let next = behind_next(self.script, who, party.next);
        let party = party.answered(&line.what, reply, next);
        self.answered.insert(line.number)?;
        self.parties[usize::from(who.0)] = party;
        self.over = ends_by(self.over, &line.what);
        self.place += 1;
        Ok(())
    }

    // Takes a line of which only one party learns.
    fn take_of(&mut self, who: ServerId, party: Party)
        requires tells { TellsOf self.old who.0 party (slice_get self.old.saids self.old.place) }
        ensures { self.new ≡ onward self.old }
    {
        self.parties[usize::from(who.0)] = party;
        self.place += 1;
    }

    // Takes the beginning of a recovery.
    fn take_recovering(&mut self, server: ServerId, by: ServerId)
        requires { slice_get self.old.saids self.old.place ≡ Some (said.Recovering server by) }
        ensures { self.new ≡ onward self.old }
    {
        self.parties[usize::from(server.0)].under_recovery = true;
        self.parties[usize::from(by.0)].dirty = true;
        self.place += 1;
    }

    // Takes a line that no party learns from.
    fn take_plain(&mut self)
        requires { TellsNobody (slice_get self.old.saids self.old.place) }
        ensures { self.new ≡ onward self.old }
    {
        self.place += 1;
    }

    // Takes a line of the tree.
    fn take_node(&mut self)
        requires { TellsNode (slice_get self.old.saids self.old.place) }
        ensures { self.new ≡ onward self.old }
    {
        self.begun = true;
        self.nodes += 1;
        self.place += 1;
    }

    // Takes the end.
    fn take_end(&mut self)
        requires { slice_get self.old.saids self.old.place ≡ Some said.End }
        ensures { self.new ≡ onward self.old }
    {
        self.over = true;
        self.place += 1;
    }

    // Takes an answer, where it may be said.
    fn step_answer(&mut self, who: ServerId, number: u32, reply: &Reply) -> Result<bool, NoMemory>
        requires { slice_get self.old.saids self.old.place ≡ Some (said.Answer who number reply.now) }
        ensures { IfOk result (Steps self.old self.new (goes_on self.old.script (before self.old) && answers_next self.old.script (granted_faults self.old.granted) (before self.old) who.0 number reply.now (next_line who.0 self.old.script (before self.old)))) }
    {
        if !self.goes_on() {
            return Ok(false);
        }
        let Some(line) = self.next_line(who) else {
            return Ok(false);
        };
        if line.number != number || !self.may_reply(who, number, &line.what, reply) {
            return Ok(false);
        }
        self.take_answer(who, line, reply)?;
        Ok(true)
    }

    // Whether a server may die now.
    fn may_die(&mut self, server: ServerId) -> bool
        ensures same { self.new ≡ self.old }
        ensures is { result ≡ may_die_now self.old.script (granted_faults self.old.granted) (before self.old) server.0 }
    {
        let party = self.party(server);
        let crashes = match self.next_line(server) {
            Some(line) => asks_crash(&line.what),
            None => false,
        };
        let called = party.may_die || crashes || (is_stalled(party.phase) && party.dirty);
        is_in_mount(party.phase) && (called || self.granted)
    }

    // Takes a death, where it may be said.
    fn step_dead(&mut self, server: ServerId) -> bool
        requires { slice_get self.old.saids self.old.place ≡ Some (said.Dead server) }
        ensures { Steps self.old self.new (goes_on self.old.script (before self.old) && may_die_now self.old.script (granted_faults self.old.granted) (before self.old) server.0) result }
    {
        if !self.goes_on() || !self.may_die(server) {
            return false;
        }
        let granted = self.granted;
        let party = self.party(server).dead(granted);
        self.take_of(server, party);
        true
    }

    // Takes the beginning of a recovery, where it may be said.
    fn step_recovering(&mut self, server: ServerId, by: ServerId) -> bool
        requires { slice_get self.old.saids self.old.place ≡ Some (said.Recovering server by) }
        ensures { Steps self.old self.new (goes_on self.old.script (before self.old) && may_recover self.old.script (granted_faults self.old.granted) (before self.old) server.0 by.0) result }
    {
        let dead = is_dead(self.party(server).phase);
        let able = by.0 == 255 || is_up(self.party(by).phase);
        if !self.goes_on() || !(dead && able) {
            return false;
        }
        self.take_recovering(server, by);
        true
    }

    // Takes the end of a recovery, where it may be said.
    fn step_recovered(&mut self, server: ServerId, keeps: OpNo) -> bool
        requires { slice_get self.old.saids self.old.place ≡ Some (said.Recovered server keeps) }
        ensures { Steps self.old self.new (goes_on self.old.script (before self.old) && may_be_recovered self.old.script (granted_faults self.old.granted) (before self.old) server.0) result }
    {
        let mut party = self.party(server);
        if !self.goes_on() || !(is_dead(party.phase) && party.under_recovery) {
            return false;
        }
        party.phase = Phase::Off;
        self.take_of(server, party);
        true
    }

    // Takes a renewal, where it may be said.
    fn step_renewed(&mut self, server: ServerId) -> bool
        requires { slice_get self.old.saids self.old.place ≡ Some (said.Renewed server) }
        ensures { Steps self.old self.new (goes_on self.old.script (before self.old) && may_be_renewed self.old.script (granted_faults self.old.granted) (before self.old) server.0) result }
    {
        let mut party = self.party(server);
        if !self.goes_on() || !is_stalled(party.phase) {
            return false;
        }
        party.phase = Phase::Up;
        self.take_of(server, party);
        true
    }

    // Takes a line that may stand wherever lines go on being said.
    fn step_plain(&mut self) -> bool
        requires { TellsNobody (slice_get self.old.saids self.old.place) }
        ensures { Steps self.old self.new (goes_on self.old.script (before self.old)) result }
    {
        if !self.goes_on() {
            return false;
        }
        self.take_plain();
        true
    }

    // Whether the tree, or the end, may be said.
    fn may_end(&mut self) -> bool
        ensures same { self.new ≡ self.old }
        ensures is { result ≡ (not (is_over self.old.script (before self.old)) && are_answered self.old.script (before self.old) && all_settled self.old.script (granted_faults self.old.granted) (before self.old)) }
    {
        let answered = self.is_answered();
        let settled = self.are_settled();
        may_end_by(self.over, answered, settled)
    }

    // Takes a line of the tree, where it may be said, of which these are all lines.
    fn step_node(&mut self, lines: &[Said], path: &Text, kind: u8, size: u32, links: u32) -> bool
        requires { slice_get self.old.saids self.old.place ≡ Some (said.Node path.now kind size links) }
        ensures { StepsNode self.old self.new lines.now (said.Node path.now kind size links) result }
    {
        if !self.may_end() {
            return false;
        }
        let found = match lines.get(self.nodes) {
            Some(line) => is_node_of(line, path, kind, size, links),
            None => false,
        };
        if found {
            self.take_node();
        }
        found
    }

    // Takes the end, where it may be said, of a tree of which these are all lines.
    fn step_end(&mut self, lines: &[Said]) -> bool
        requires { slice_get self.old.saids self.old.place ≡ Some said.End }
        ensures { StepsEnd self.old self.new lines.now result }
    {
        if !self.may_end() || self.nodes != lines.len() {
            return false;
        }
        self.take_end();
        true
    }

    /// Whether the next line may be said; where it may, it is taken. Where it is a line of the tree, or the end, these are the lines of the
    /// tree of what was said. After `NoMemory` it is of no further use.
    pub fn step(&mut self, lines: &[Said]) -> Result<bool, NoMemory>
        requires more { self.old.place < length self.old.saids }
        ensures yes { IfOk result (λ it. it ≡ true → self.new ≡ onward self.old) }
        ensures may { (opening : Opening) → HasTreeAt self.old opening lines.now (slice_get self.old.saids self.old.place) → IfOk result (λ it. it ≡ true → MayGoOn self.old opening (slice_get self.old.saids self.old.place)) }
        ensures never { (opening : Opening) → HasTreeAt self.old opening lines.now (slice_get self.old.saids self.old.place) → IfOk result (λ it. it ≡ false → MayGoOn self.old opening (slice_get self.old.saids self.old.place) → ⊥) }
    {
        let saids = self.saids;
        let Some(next) = saids.get(self.place) else {
            unreachable!()
        };
        match next {
            Said::Answer {
                server,
                line,
                reply,
            } => self.step_answer(*server, *line, reply),
            Said::Dead { server } => Ok(self.step_dead(*server)),
            Said::Recovering { server, by } => Ok(self.step_recovering(*server, *by)),
            Said::Recovered { server, keeps } => Ok(self.step_recovered(*server, *keeps)),
            Said::Renewed { server } => Ok(self.step_renewed(*server)),
            Said::Backup { .. } | Said::Locks { .. } => Ok(self.step_plain()),
            Said::Node {
                path,
                kind,
                size,
                links,
            } => Ok(self.step_node(lines, path, *kind, *size, *links)),
            Said::End => Ok(self.step_end(lines)),
            Said::Redo { .. } | Said::Shown(_) => Ok(false),
        }
    }

    // Why an answer may not be said.
    fn why_answer(&mut self, who: ServerId, number: u32) -> Breach
        ensures { self.new ≡ self.old }
    {
        let Some(line) = self.next_line(who) else {
            return Breach::NoLineLeft { who };
        };
        if line.number != number {
            return Breach::NotNext {
                who,
                next: line.number,
            };
        }
        let hosted = matches!(&line.what, What::Host(_));
        match self.waiting(!hosted) {
            Some(waiting) if waiting < number => Breach::Waits { line: waiting },
            _ if hosted => Breach::HostReply,
            _ => Breach::of_reply(who, self.party(who)),
        }
    }

    // The number of the first line that waits, of the host or of any party.
    fn waiting(&mut self, hosts: bool) -> Option<u32>
        ensures { self.new ≡ self.old }
    {
        let from = if hosts {
            self.lets_host(0);
            self.hosts
        } else {
            self.lets_all(0);
            self.all
        };
        self.script.get(from).map(|line| line.number)
    }

    // The first server that is stalled or dead.
    fn unsettled(&self) -> Option<ServerId> {
        for server in 0..SERVERS as u8 {
            if !is_settled(self.party(ServerId(server)).phase) {
                return Some(ServerId(server));
            }
        }
        None
    }

    // Why a line of the tree, or the end, may not be said.
    fn why_tree(&mut self, other: Breach) -> Breach
        ensures { self.new ≡ self.old }
    {
        if let Some(line) = self.waiting(false) {
            return Breach::Waits { line };
        }
        match self.unsettled() {
            Some(who) => Breach::Unsettled { who },
            None => other,
        }
    }

    /// Why the next line may not be said, where it may not. Nothing is taken.
    pub fn why(&mut self) -> Breach
        ensures { self.new ≡ self.old }
    {
        let saids = self.saids;
        let Some(next) = saids.get(self.place) else {
            return Breach::Never;
        };
        match next {
            _ if self.over => Breach::Over,
            Said::Node { .. } => self.why_tree(Breach::OtherNode),
            Said::End => self.why_tree(Breach::OtherEnd),
            Said::Redo { .. } | Said::Shown(_) => Breach::Never,
            _ if self.begun => Breach::TreeBegun,
            Said::Answer { server, line, .. } => self.why_answer(*server, *line),
            Said::Dead { server } if !is_in_mount(self.party(*server).phase) => {
                Breach::NotMounted { who: *server }
            }
            Said::Dead { server } => Breach::Uncalled { who: *server },
            Said::Recovering { server, .. } if !is_dead(self.party(*server).phase) => {
                Breach::NotDead { who: *server }
            }
            Said::Recovering { by, .. } => Breach::NotUp { who: *by },
            Said::Recovered { server, .. } if !is_dead(self.party(*server).phase) => {
                Breach::NotDead { who: *server }
            }
            Said::Recovered { server, .. } => Breach::NotBegun { who: *server },
            Said::Renewed { server } => Breach::NotStalled { who: *server },
            Said::Backup { .. } | Said::Locks { .. } => Breach::Never,
        }
    }
}
