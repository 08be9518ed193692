//! What a yes says of a log, and which logs get one. Stated on a function that does nothing.

ghost use Rattle.std.specs.Prelude.{◌≡◌, ◌^◌, ◌<◌, ◌≤◌, ℕ, List, Some, length};
ghost use Rattle.outside_io.specs.Files.{Outside};
ghost use Rattle.play_forms.specs.Plans.{PlanValue};
ghost use Rattle.play_plan_laws.specs.Assemblies.{IsReady, PlayFiles};
ghost use Rattle.play_result_laws.specs.Results.{HoldSinks, IsLogOf, IsPlanIn};
ghost use Rattle.audit_forms.specs.Audited.{Yes};
ghost use Rattle.audit_forms.specs.Whole.{IsAudited};
ghost use Rattle.audit_laws.specs.Played.{IsPlayedBy};

/// A log with a yes names a run of its script's plan, from an opening to the end of a whole play, whoever made its acts; and the told files
/// of the sinks are those of the plan's plain function. The log of a play that was done whole, by at most 8 workers, has a yes, as long
/// as the told files are those that it left.
pub fn law_of_audits()
    ensures yes { (script log : List ℕ) (outside : Outside) (acts : ℕ) → (audited : IsAudited script log outside (Yes acts))
        → IsPlayedBy audited.plan audited.files audited.samples outside audited.text acts }
    ensures plays { (script log text : List ℕ) (outside : Outside) (plan : PlanValue) (files : PlayFiles) (samples : List (List ℕ)) (workers : ℕ)
        → workers ≤ 8 → IsPlanIn script log outside plan files samples → IsReady plan files → outside.file log ≡ Some text → length text < 2 ^ 64
        → HoldSinks plan samples outside → IsLogOf workers plan files outside text → (acts : ℕ) × IsAudited script log outside (Yes acts) }
{}
