// What holds of calm runs, and which scripts are calm.
ghost use Rattle.std.specs.Prelude.{ℕ, IsTrue};
ghost use Rattle.frang_soak.specs.Scripts.{soak_script};
ghost use Rattle.calm_runs.specs.Calm.{NoPutComesLate, NobodyStops, is_calm};

use core_laws::writes_last;

/// Over each run from an opening of a script no line of which makes a server die or stall, and in which no get or put fails, each server is off or up.
pub fn nobody_stops()
    ensures stops { NobodyStops }
{
    writes_last();
}

/// Each put of such a run that is answered came in time.
pub fn no_put_comes_late()
    ensures timely { NoPutComesLate }
{
    writes_last();
}

/// No line of a soak's script makes a server die or stall.
pub fn soaks_are_calm()
    ensures calm { (number : ℕ) → IsTrue (is_calm (soak_script number)) }
{}
