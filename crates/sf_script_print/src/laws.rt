//! That a printed script is read as the script that it was made of.
ghost use Rattle.std.specs.Prelude.{◌≡◌, ◌≤◌, length, ℕ, List, Ok};
ghost use Rattle.sf_script.specs.Parts.{ScriptParts};
ghost use Rattle.sf_script.specs.Scripts.{script_of};
ghost use Rattle.sf_script_print.specs.Printing.{printed};

/// Where a text gives a script, the script's printed text gives the same script, and is no longer.
pub fn a_printed_script_is_read()
    ensures same { (bytes : List ℕ) (script : ScriptParts) → script_of bytes ≡ Ok script → script_of (printed script) ≡ Ok script }
    ensures no_longer { (bytes : List ℕ) (script : ScriptParts) → script_of bytes ≡ Ok script → length (printed script) ≤ length bytes }
{}
