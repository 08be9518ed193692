//! What must hold of a play's plan and the files that it names, stated on functions that do nothing.

ghost use Rattle.std.specs.Prelude.{◌≡◌, ◌⊎◌, ℕ, List, IsTrue};
ghost use Rattle.outside_io.specs.Files.{Outside};
ghost use Rattle.script_lang.specs.PlayScripts.{IsPlayScript};
ghost use Rattle.script_lang.specs.declared.script.Script.{Script};
ghost use Rattle.wav_form.specs.declared.heads.WavHead.{WavHead};
ghost use Rattle.play_forms.specs.declared.plan_fault.PlanFault.{PlanFault};
ghost use Rattle.play_forms.specs.Plans.{IsFit, IsFitFault, IsPlanOfScript, PlanValue};
ghost use Rattle.play_result_laws.specs.Files.{IsReader};
ghost use Rattle.play_files.specs.Left.{IsFittedTo};
ghost use Rattle.play_files.specs.Names.{HaveOwnFiles};
ghost use Rattle.play_files.specs.Opening.{HasHead};

/// A sink's file is named by no other line of its script, and is neither the script nor its log.
pub fn law_of_names()
    ensures { (script log text : List ℕ) (read : Script) (plan : PlanValue) → IsPlayScript script log text read → IsPlanOfScript read plan → HaveOwnFiles script log plan.parts }
{}

/// Where files are told, the plan of a script that is fitted to their heads is one. Where each source has a head, there is one, and it fits
/// or has a fault.
pub fn law_of_fitted_plans()
    ensures one { (script : Script) (old : Outside) (one other : PlanValue) → IsTrue old.tells → IsFittedTo script old one → IsFittedTo script old other → one ≡ other }
    ensures some { (script : Script) (old : Outside) (planned : PlanValue) → IsPlanOfScript script planned
        → ((place : ℕ) (name : List ℕ) → IsReader planned.parts place name → (head : WavHead) × HasHead old name head) → (fitted : PlanValue) × IsFittedTo script old fitted }
    ensures fits { (script : Script) (old : Outside) (fitted : PlanValue) → IsFittedTo script old fitted → IsFit fitted ⊎ ((why : PlanFault) × IsFitFault fitted why) }
{}
