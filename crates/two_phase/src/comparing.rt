// What was seen before the locks were held, against what is cached once they are.
ghost use Rattle.std.specs.Prelude.{◌≡◌, ◌↔◌, IsOk, not};
ghost use Rattle.std.specs.List.{All, prefix_len, take_while};
ghost use Rattle.std.specs.Result.{result_err};
ghost use Rattle.set_definitions.specs.Seen.{first_moved};
ghost use Rattle.lock_sets.specs.Seen.{seen_as};
ghost use Rattle.two_phase.specs.Rechecks.{IsCached, IsUnmoved, is_cached};

use lock_sets::{CachedBlocks, Comparison, Moved, Seen, compare};

/// Compares seen sectors, all of which are cached, with what is cached of them now. `Moved` comes exactly where one of them has another version than it had, and
/// names the first such.
pub fn recheck<C: CachedBlocks>(saw: &[Seen], sectors: &C) -> Result<(), Moved>
    requires { All (IsCached (C.cached sectors.now)) (seen_as saw.now) }
    ensures ok { IsOk result ↔ All (IsUnmoved (C.cached sectors.now)) (seen_as saw.now) }
    ensures moved { result_err result ≡ first_moved (seen_as saw.now) (C.cached sectors.now) }
{
    match compare(saw, sectors) {
        Comparison::HasMoved(moved) => Err(moved),
        Comparison::HasStopped => Ok(()),
        Comparison::HasGoneThrough => Ok(()),
    }
}

/// The longest front of seen sectors that are cached, which can be rechecked: those before the first that isn't cached. What moved first of them moved first of all
/// that were seen.
pub fn cached_front<'a, C: CachedBlocks>(saw: &'a [Seen], sectors: &C) -> &'a [Seen]
    ensures is { seen_as result.now ≡ take_while (is_cached (C.cached sectors.now)) (seen_as saw.now) }
    ensures cached { All (IsCached (C.cached sectors.now)) (seen_as result.now) }
    ensures moved { first_moved (seen_as result.now) (C.cached sectors.now) ≡ first_moved (seen_as saw.now) (C.cached sectors.now) }
{
    let count = cached_count(saw, sectors);
    &saw[..count]
}

// How many of them, from the first on, are cached.
fn cached_count<C: CachedBlocks>(saw: &[Seen], sectors: &C) -> usize
    ensures { result ≡ prefix_len (is_cached (C.cached sectors.now)) (seen_as saw.now) }
{
    let mut count = 0;
    for one in saw {
        let missing = is_missing(sectors, one);
        if missing {
            return count;
        }
        count += 1;
    }
    count
}

// Whether a seen sector isn't cached.
fn is_missing<C: CachedBlocks>(sectors: &C, one: &Seen) -> bool
    ensures { result ≡ not (is_cached (C.cached sectors.now) (one.now.sector.0, one.now.version)) }
{
    sectors.block(one.sector).is_none()
}
