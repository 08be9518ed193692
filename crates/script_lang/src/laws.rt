//! What must hold of reading trace and play scripts, stated on functions that do nothing.

ghost use Rattle.std.specs.Prelude.{◌≡◌, ℕ, List, Result};
ghost use Rattle.script_lang.specs.Scripts.{Before, ReadsAs};
ghost use Rattle.script_lang.specs.PlayScripts.{PlayBefore, PlayReadsAs};
ghost use Rattle.script_lang.specs.declared.script.ScriptFault.{ScriptFault};

/// A text comes to one outcome as a trace script: one script, or one first fault.
pub fn one_outcome()
    ensures same { (text : List ℕ) (one other : Result Before ScriptFault) → ReadsAs text one → ReadsAs text other → one ≡ other }
{}

/// So does it as a play script, where the script and the log have these names.
pub fn one_play()
    ensures same { (script log text : List ℕ) (one other : Result PlayBefore ScriptFault)
        → PlayReadsAs script log text one → PlayReadsAs script log text other → one ≡ other }
{}
