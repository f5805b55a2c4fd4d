// Laws of what is cached.
ghost use Rattle.std.specs.Prelude.{◌≡◌, ℕ, Bool, not, is_some, List, filter};
ghost use Rattle.frang_base.specs.Functions.{member};
ghost use Rattle.cache_definitions.specs.Caches.{Cache, CachedSector, any_cached, first_cached};
ghost use Rattle.cache_definitions.specs.Flags.{but_all};

/// Some cached sector passes a test exactly where there is a first that does.
pub fn some_sector_passes_where_a_first_does()
    ensures { (passes : CachedSector → Bool) (cache : Cache) → any_cached passes cache ≡ is_some (first_cached passes cache) }
{}

/// What is left of a list but some sectors are those that aren't among them.
pub fn what_is_left_is_not_among_them()
    ensures { (left sectors : List ℕ) → but_all left sectors ≡ filter (λ s. not (member s left)) sectors }
{}
