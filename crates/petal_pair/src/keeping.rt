// What a pair keeps of a call: its own record and counts, and the sectors that the copy that is out has missed.
ghost use Rattle.std.specs.Prelude.{◌≡◌, ◌≤◌, ◌+◌, ℕ, slice_index, vec_len, vec_capacity};
ghost use Rattle.petal_pair.specs.PairedCalls.{CountsGet, CountsPut, acts_put, acts_said, say_faults_said, faults_get, faults_put, missed_after};

use crate::InUse;
use crate::counting::count_fault;
use frang_base::{Block, Sector, ServerId, Text};
use frang_outside::{Act, Failed, Put, PutFault, SayFault, Taken};

/// Notes a put's sector where a copy that is out has missed it.
pub(crate) fn note_missed(
    missed: &mut Vec<Sector>,
    before: InUse,
    after: InUse,
    sector: Sector,
    answer: Result<Taken, PutFault>,
)
    requires { vec_len missed.old + 1 ≤ vec_capacity missed.old }
    ensures { missed.new.items ≡ missed_after before after missed.old.items sector answer }
{
    let has_missed = match before {
        InUse::Both => !matches!(after, InUse::Both),
        InUse::FirstAlone | InUse::SecondAlone => {
            matches!(answer, Ok(Taken::Written) | Err(PutFault::Failed))
        }
    };
    if has_missed {
        missed.push_reserved(sector);
    }
}

/// Adds an answered put to the record.
pub(crate) fn note_put(acts: &mut Vec<Act>, put: &Put, answer: Result<Taken, PutFault>)
    requires { vec_len acts.old + 1 ≤ vec_capacity acts.old }
    ensures { acts.new.items ≡ acts_put acts.old.items put.entry.now answer }
{
    if let Ok(taken) = answer {
        acts.push_reserved(Act::Put(*put, taken));
    }
}

/// Counts a failed put.
pub(crate) fn count_put(faults: &mut [u64; 256], server: ServerId, answer: Result<Taken, PutFault>)
    ensures counted { faults.new ≡ faults_put faults.old server.0 answer }
    ensures counts { CountsPut faults.old faults.new server.0 answer }
    ensures rises { (party : ℕ) → slice_index faults.old party ≤ slice_index faults.new party }
{
    if let Err(PutFault::Failed) = answer {
        count_fault(faults, server);
    }
}

/// Counts a failed get.
pub(crate) fn count_get(faults: &mut [u64; 256], server: ServerId, answer: &Result<Block, Failed>)
    ensures counted { faults.new ≡ faults_get faults.old server.0 answer.now }
    ensures counts { CountsGet faults.old faults.new server.0 answer.now }
    ensures rises { (party : ℕ) → slice_index faults.old party ≤ slice_index faults.new party }
{
    if let Err(Failed) = answer {
        count_fault(faults, server);
    }
}

/// Adds a line that was said to the record.
pub(crate) fn note_said(acts: &mut Vec<Act>, line: Text, answer: Result<(), SayFault>)
    requires { vec_len acts.old + 1 ≤ vec_capacity acts.old }
    ensures { acts.new.items ≡ acts_said acts.old.items line answer }
{
    if answer.is_ok() {
        acts.push_reserved(Act::Said(line));
    }
}

/// Counts a failed say.
pub(crate) fn count_say(faults: &mut u64, answer: Result<(), SayFault>)
    ensures { faults.new ≡ say_faults_said faults.old answer }
{
    if let Err(SayFault::Failed) = answer {
        *faults = faults.saturating_add(1);
    }
}
