// The order of the lines of a script.
ghost use Rattle.std.specs.Prelude.{◌≡◌, ℕ, Ok, IsTrue, List};
ghost use Rattle.frang_base.specs.declared.script.Line.{Line};
ghost use Rattle.script_definitions.specs.ScriptText.{script_of};
ghost use Rattle.script_places.specs.Placed.{ascends};

use frang_base::Line;

/// Whether the numbers of lines ascend.
pub fn ascends(lines: &[Line]) -> bool
    ensures { result ≡ ascends lines.now }
{
    let mut least = 0;
    for line in lines {
        let number = u64::from(line.number);
        if number < least {
            return false;
        }
        least = number + 1;
    }
    true
}

/// The numbers of the lines of each script that was read ascend.
pub fn read_scripts_ascend()
    ensures { (bytes : List ℕ) (script : List Line) → script_of bytes ≡ Ok script → IsTrue (ascends script) }
{}
