// What the definitions promise of one another. Each law is the contract of a function that does nothing.
ghost use Rattle.std.specs.Prelude.{◌≡◌, ◌≤◌, ◌+◌, ◌++◌, ◌∷◌, [], List, ℕ, Some, None, Ok, length};
ghost use Rattle.frang_base.specs.declared.said.Said.{Said};
ghost use Rattle.frang_base.specs.declared.script.Line.{Line};
ghost use Rattle.tree_definitions.specs.SaidLines.{said_line};
ghost use Rattle.script_definitions.specs.SaidReading.{IsProperSaid, said_of};
ghost use Rattle.script_definitions.specs.ScriptGrammar.{IsScriptText};
ghost use Rattle.script_definitions.specs.ScriptPrinted.{printed};
ghost use Rattle.script_definitions.specs.ScriptText.{script_of};

/// A line is read back from its bytes.
pub fn lines_are_read_back()
    ensures { (s : Said) → IsProperSaid s → said_of (said_line s) ≡ Some s }
{}

/// What is read of bytes is a line that can be said, and they are its bytes.
pub fn bytes_are_those_of_their_line()
    ensures { (bytes : List ℕ) (s : Said) → said_of bytes ≡ Some s → IsProperSaid s × (said_line s ≡ bytes) }
{}

/// No two lines have the same bytes.
pub fn no_two_lines_have_the_same_bytes()
    ensures { (s t : Said) → IsProperSaid s → IsProperSaid t → said_line s ≡ said_line t → s ≡ t }
{}

/// Whatever follows the line feed is refused.
pub fn nothing_may_follow_a_line()
    ensures { (s : Said) (b : ℕ) (more : List ℕ) → IsProperSaid s → said_of (said_line s ++ b ∷ more) ≡ None }
{}

/// What is read is in the grammar.
pub fn what_is_read_is_in_the_grammar()
    ensures { (bytes : List ℕ) (script : List Line) → script_of bytes ≡ Ok script → IsScriptText bytes script }
{}

/// What is in the grammar is read.
pub fn what_is_in_the_grammar_is_read()
    ensures { (bytes : List ℕ) (script : List Line) → IsScriptText bytes script → script_of bytes ≡ Ok script }
{}

/// No text is two scripts.
pub fn a_text_is_one_script()
    ensures { (bytes : List ℕ) (s t : List Line) → IsScriptText bytes s → IsScriptText bytes t → s ≡ t }
{}

/// A script that was read is read again, with the numbers of its lines, from the text that prints it, where that isn't too long. It
/// is longer than the bytes that were read by at most a line feed, and where these end by a line feed it is short enough.
pub fn printed_scripts_are_read_back()
    ensures read { (bytes : List ℕ) (script : List Line) → script_of bytes ≡ Ok script → length (printed script) ≤ 1048576 → script_of (printed script) ≡ Ok script }
    ensures short { (bytes : List ℕ) (script : List Line) → script_of bytes ≡ Ok script → length (printed script) ≤ length bytes + 1 }
    ensures ended { (text : List ℕ) (script : List Line) → script_of (text ++ 10 ∷ []) ≡ Ok script → script_of (printed script) ≡ Ok script }
{}
