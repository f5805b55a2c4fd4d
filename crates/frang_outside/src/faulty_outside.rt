// An outside in memory that fails at listed calls.
ghost use Rattle.std.specs.Prelude.{◌≡◌, ℕ, [], length, slice_index};
ghost use Rattle.sector_bytes.specs.Sectors.{SameSectors};
ghost use Rattle.frang_outside.specs.Outside.{Rose, Follows, GetOutcome, PutOutcome, SayOutcome};
ghost use Rattle.frang_outside.specs.FaultyOutside.{Calls, is_next_listed, with_call, with_fault, faulty_state, FaultyGet, FaultyPut, FaultySay};

use crate::{Act, Failed, MemOutside, Outside, Put, PutFault, SayFault, Taken};
use frang_base::{Block, Sector, ServerId};
use std::alloc::Global;
use std::marker::Model;

/// An outside in memory that fails at the listed ordinals of its gets, of its puts and of its says,
/// each kind counted from 1, and at no others. A late put doesn't fail, and a failed put leaves the
/// old sector. A call that wants memory isn't counted: nothing has changed. Else it is as
/// `MemOutside`.
pub struct FaultyOutside {
    inner: MemOutside,
    gets: FaultPlan,
    puts: FaultPlan,
    says: FaultPlan,
    // How many gets and puts have failed that named a party, at its number. Each stands still at
    // its type's end.
    faults: [u64; 256],
    // How many says have failed. It stands still at its type's end.
    say_faults: u64,
}

// By one call, wherever it is dropped.
impl Drop for FaultyOutside {
    fn drop(self) {
        let FaultyOutside {
            inner: _inner,
            gets: _gets,
            puts: _puts,
            says: _says,
            faults: _,
            say_faults: _,
        } = self;
    }
}

impl Model for FaultyOutside {
    ghost use Rattle.frang_outside.specs.FaultyOutside.{Faulty};

    ghost Value = { Faulty };

    ghost view = { λ f. record {
      acts = f.inner;
      gets = f.gets;
      puts = f.puts;
      says = f.says;
      faults = f.faults;
      say_faults = f.say_faults;
    } };
}

impl FaultyOutside {
    /// All sectors are zero, the record is empty, no call was made, and nothing has failed. It
    /// takes no memory.
    pub fn new(alloc: Global, gets: Vec<u64>, puts: Vec<u64>, says: Vec<u64>) -> Self
        ensures acts { result.acts ≡ [] }
        ensures gets { result.gets ≡ record { listed = gets.items; made = 0 } }
        ensures puts { result.puts ≡ record { listed = puts.items; made = 0 } }
        ensures says { result.says ≡ record { listed = says.items; made = 0 } }
        ensures faults { (party : ℕ) → slice_index result.faults party ≡ 0 }
        ensures say_faults { result.say_faults ≡ 0 }
    {
        FaultyOutside {
            inner: MemOutside::new(alloc),
            gets: FaultPlan::new(gets),
            puts: FaultPlan::new(puts),
            says: FaultPlan::new(says),
            faults: no_faults(),
            say_faults: 0,
        }
    }

    /// The record: the acts so far, in their order.
    pub fn acts(&self) -> &[Act]
        ensures { result.now ≡ self.now.acts }
    {
        self.inner.acts()
    }
}

impl Outside for FaultyOutside {
    ghost use Rattle.frang_outside.specs.FaultyOutside.{faulty_state, faulty_accounts};

    ghost state = { faulty_state };

    ghost accounts = { faulty_accounts };

    fn get(&mut self, server: ServerId, sector: Sector) -> Result<Block, Failed>
        ensures sectors { SameSectors (faulty_state self.new).sectors
            (faulty_state self.old).sectors }
        ensures acts { (faulty_state self.new).acts ≡ (faulty_state self.old).acts }
        ensures counts { Follows (faulty_state self.old) (faulty_state self.new) }
        ensures outcome { GetOutcome (faulty_state self.old) (faulty_state self.new)
            server.0 sector.0 result }

        // It fails exactly where its ordinal is listed.
        ensures answer { FaultyGet self.old self.new server.0 sector.0 result }
    {
        let fails = self.gets.is_next_listed();
        self.gets.count();
        if fails {
            count_fault(&mut self.faults, server);
            return Err(Failed);
        }
        self.inner.get(server, sector)
    }

    fn put(&mut self, put: &Put) -> Result<Taken, PutFault>
        ensures counts { Follows (faulty_state self.old) (faulty_state self.new) }
        ensures outcome { PutOutcome (faulty_state self.old) (faulty_state self.new)
            put.entry.now result }

        // It fails exactly where it isn't late and its ordinal is listed.
        ensures answer { FaultyPut self.old self.new put.entry.now result }
    {
        if put.now <= put.stamp && self.puts.is_next_listed() {
            self.puts.count();
            count_fault(&mut self.faults, put.server);
            return Err(PutFault::Failed);
        }
        let taken = self.inner.put(put)?;
        self.puts.count();
        Ok(taken)
    }

    fn say(&mut self, line: &[u8]) -> Result<(), SayFault>
        ensures sectors { SameSectors (faulty_state self.new).sectors
            (faulty_state self.old).sectors }
        ensures counts { Follows (faulty_state self.old) (faulty_state self.new) }
        ensures outcome { SayOutcome (faulty_state self.old) (faulty_state self.new)
            line.now result }

        // It fails exactly where its ordinal is listed.
        ensures answer { FaultySay self.old self.new line.now result }
    {
        if self.says.is_next_listed() {
            self.says.count();
            self.say_faults = self.say_faults.saturating_add(1);
            return Err(SayFault::Failed);
        }
        self.inner.say(line)?;
        self.says.count();
        Ok(())
    }
}

fn no_faults() -> [u64; 256]
    ensures { (party : ℕ) → slice_index result party ≡ 0 }
{
    [0; 256]
}

fn count_fault(faults: &mut [u64; 256], party: ServerId)
    ensures counted { faults.new ≡ with_fault faults.old party.0 }
    ensures rose { Rose (slice_index faults.old party.0) (slice_index faults.new party.0) }
    ensures others { (other : ℕ) → (other ≡ party.0 → ⊥)
        → slice_index faults.new other ≡ slice_index faults.old other }
{
    let party = party.0 as usize;
    faults[party] = faults[party].saturating_add(1);
}

// The calls of one kind: which fail, and how many were made.
#[derive(Drop)]
struct FaultPlan {
    // The ordinals of the calls that fail, counted from 1.
    listed: Vec<u64>,
    // It stands still at its type's end, past which no call can be listed.
    made: u64,
}

impl Model for FaultPlan {
    ghost use Rattle.frang_outside.specs.FaultyOutside.{Calls};

    ghost Value = { Calls };

    ghost view = { λ p. record { listed = p.listed.items; made = p.made } };
}

impl FaultPlan {
    fn new(listed: Vec<u64>) -> Self
        ensures { result ≡ record { listed = listed.items; made = 0 } }
    {
        FaultPlan { listed, made: 0 }
    }

    fn is_next_listed(&self) -> bool
        ensures { result ≡ is_next_listed self.now }
    {
        let next = u128::from(self.made) + 1;
        self.listed
            .iter()
            .any(|ordinal| u128::from(*ordinal) == next)
    }

    fn count(&mut self)
        ensures { self.new ≡ with_call self.old }
    {
        self.made = self.made.saturating_add(1);
    }
}
