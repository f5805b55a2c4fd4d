// The sectors at which a plan looked.
ghost use Rattle.std.specs.Prelude.{◌≡◌, ◌∷◌, [], Some, None, IfOk};
ghost use Rattle.std.specs.Option.{option_map};
ghost use Rattle.dir_lookup.specs.Looked.{Adds, numbers_in};

use frang_base::{NoMemory, Sector};
use std::alloc::Global;
use std::marker::Model;

/// The sectors at which a plan looked and that are cached, in order, by their numbers; `None` where they weren't asked for, or once memory was wanting.
#[derive(Drop)]
pub struct Looked {
    sectors: Option<Vec<Sector>>,
}

impl Model for Looked {
    ghost use Rattle.std.specs.Prelude.{List, ℕ, Option};
    ghost use Rattle.dir_lookup.specs.Looked.{numbers_in};

    ghost Value = { Option (List ℕ) };

    ghost view = { λ l. numbers_in l.sectors };
}

impl Looked {
    /// None so far. It takes no memory.
    pub fn new(alloc: Global) -> Self
        ensures { result ≡ Some [] }
    {
        Looked {
            sectors: Some(Vec::new(alloc)),
        }
    }

    /// For a plan that isn't asked at which sectors it looks.
    pub fn unasked() -> Self
        ensures { result ≡ None }
    {
        Looked { sectors: None }
    }

    /// A sector more. Where memory is wanting, the sectors are kept no longer.
    pub fn add(&mut self, sector: Sector)
        ensures { Adds self.old self.new (sector.0 ∷ []) }
    {
        if let Some(mut sectors) = self.sectors.take() {
            if sectors.push(sector).is_ok() {
                self.sectors = Some(sectors);
            }
        }
    }

    /// The sectors, the first one first. Its one refusal is that memory was wanting, or that they weren't asked for.
    pub fn sectors(self) -> Result<Vec<Sector>, NoMemory>
        ensures { IfOk result (λ sectors. self ≡ numbers_in (Some sectors)) }
    {
        self.sectors.ok_or(NoMemory)
    }
}
