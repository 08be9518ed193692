//! What an audit of a log answers, as definitions.
#![tactic(auto)]

ghost use Rattle.std.specs.Prelude.{◌≡◌, ◌+◌, ◌∷◌, ℕ, List, Some, codes, false, slice_get};
ghost use Rattle.std.specs.Str.{bytes_eq};
ghost use Rattle.omx_types.specs.declared.fault.AuditWhy.{AuditWhy};
ghost use Rattle.outside_io.specs.Files.{Outside};
ghost use Rattle.il_machine.specs.Sound.{Sound};
ghost use Rattle.il_machine.specs.World.{World};
ghost use Rattle.script_lang.specs.declared.play_line.PartLine.{PartLine};
ghost use Rattle.play_forms.specs.Plans.{PlanValue};
ghost use Rattle.play_log.specs.Entries.{Entry, steps_of};
ghost use Rattle.play_log.specs.Lines.{LogLine};
ghost use Rattle.play_log.specs.Naming.{AreTelling, NameAll};
ghost use Rattle.play_log.specs.Scenes.{HaveOwnNames, Scene};
ghost use Rattle.play_plan_laws.specs.Assemblies.{PlayFiles};
ghost use Rattle.play_result_laws.specs.Asked.{told_by};
ghost use Rattle.play_result_laws.specs.Results.{IsPlanIn};
ghost use Rattle.play_result_laws.specs.Worlds.{IsOpening};
ghost use Rattle.audit_forms.specs.Audited.{Audits, Case, Moment, No, Verdict};
ghost use Rattle.audit_forms.specs.Passing.{PassesLine, StopsAt};
ghost use Rattle.audit_forms.specs.Told.{HaveNumbers, nothing_told, told_after};
ghost use Rattle.audit_forms.specs.Whole.{IsVerdictFrom};

/// The lines of a text have one verdict: from a moment on, and so from a world where the play of a script's plan begins.
pub fn law_of_one_verdict()
    ensures lines { (case : Case) (number : ℕ) (at : Moment) (pieces : List (List ℕ)) (verdict other : Verdict)
        → HaveOwnNames (case.plan).parts → HaveOwnNames (case.scene).parts → Sound at.world → AreTelling at.world
        → Audits case number at pieces verdict → Audits case number at pieces other → other ≡ verdict }
    ensures text { (script log text : List ℕ) (outside : Outside) (plan : PlanValue) (files : PlayFiles) (samples : List (List ℕ)) (opening : World)
        (verdict other : Verdict) → IsPlanIn script log outside plan files samples → IsOpening plan files opening
        → IsVerdictFrom outside plan opening text verdict → IsVerdictFrom outside plan opening text other → other ≡ verdict }
{}

/// The verdict by one line: from a line that passes each test it is that of what follows, and a line that stops the check has its own.
pub fn law_of_passing_lines()
    ensures goes_on { (case : Case) (number : ℕ) (at next : Moment) (piece : List ℕ) (pieces : List (List ℕ)) (verdict : Verdict)
        → bytes_eq piece (codes "end") ≡ false → PassesLine case number at piece next → Audits case (number + 1) next pieces verdict
        → Audits case number at (piece ∷ pieces) verdict }
    ensures stops { (case : Case) (number : ℕ) (at : Moment) (piece : List ℕ) (pieces : List (List ℕ)) (why : AuditWhy)
        → bytes_eq piece (codes "end") ≡ false → StopsAt case number at piece why → Audits case number at (piece ∷ pieces) (No number why) }
{}

/// What the lines of a log tell of a component is what its client was told by the acts that they name.
pub fn law_of_tellings()
    ensures { (scene : Scene) (world after : World) (lines : List LogLine) (entries : List Entry) (place : ℕ) (part : PartLine)
        → HaveOwnNames scene.parts → HaveNumbers scene → NameAll scene world lines entries after → slice_get scene.parts place ≡ Some part
        → slice_get (told_after lines scene.parts (nothing_told scene.parts)) place ≡ Some (told_by place (steps_of entries)) }
{}
