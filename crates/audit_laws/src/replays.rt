//! Two openings of one plan: what a play did in the one is done again in the other. Stated on functions that do nothing.

ghost use Rattle.std.specs.Prelude.{◌≡◌, ℕ, List};
ghost use Rattle.omx_types.specs.declared.handle.Handle.{Handle};
ghost use Rattle.outside_io.specs.Files.{Outside};
ghost use Rattle.il_machine.specs.Acts.{Act, Reply};
ghost use Rattle.il_machine.specs.Acts as acts;
ghost use Rattle.il_machine.specs.Run.{Meets};
ghost use Rattle.il_machine.specs.Stepping.{WorkDone};
ghost use Rattle.il_machine.specs.World.{World};
ghost use Rattle.bare_run_laws.specs.Bare.{IsUnmarked, bare};
ghost use Rattle.play_forms.specs.Plans.{PlanValue};
ghost use Rattle.play_log.specs.Entries.{Entry};
ghost use Rattle.play_log.specs.Lines.{LogLine};
ghost use Rattle.play_log.specs.Naming.{AreTelling, NameAll};
ghost use Rattle.play_log.specs.Scenes.{HaveOwnNames, scene_of};
ghost use Rattle.play_plan_laws.specs.Assemblies.{IsReady, PlayFiles};
ghost use Rattle.play_result_laws.specs.Worlds.{IsOpening};
ghost use Rattle.play_history_laws.specs.Order.{Cursor};
ghost use Rattle.play_history_laws.specs.Askings.{IsPlanHistory};
ghost use Rattle.audit_order.specs.Steps.{OrderValue};
ghost use Rattle.audit_forms.specs.Audited.{Verdict};
ghost use Rattle.audit_forms.specs.Whole.{IsAudited, IsVerdictFrom};
ghost use Rattle.audit_laws.specs.Admitted.{AdmitsLines};

/// Two openings of one plan differ in the key of headers and in the slots of handles alone. No header that a work brings back in a history
/// of the play has a mark. So the lines that a play writes from the one opening on name a run from the other one on, which leads to a world
/// of the same bare form.
pub fn law_of_replays()
    ensures openings { (plan : PlanValue) (files : PlayFiles) (one other : World)
        → IsReady plan files → IsOpening plan files one → IsOpening plan files other → bare one ≡ bare other }
    ensures unmarked { (plan : PlanValue) (files : PlayFiles) (handles : List Handle) (world : World) (steps : List (Act × Reply)) (cursor : Cursor) (middle : World)
        → IsPlanHistory plan files handles world steps cursor middle
        → (done : WorkDone) → Meets middle (acts.Finish done) → IsUnmarked done.headers }
    ensures follows { (plan : PlanValue) (files : PlayFiles) (one other : World)
        → IsReady plan files → HaveOwnNames plan.parts → IsOpening plan files one → IsOpening plan files other
        → (lines : List LogLine) (entries : List Entry) (after : World) (order : OrderValue)
        → NameAll (scene_of plan.parts one) one lines entries after → AdmitsLines plan lines order
        → (others : List Entry) × (behind : World) × NameAll (scene_of plan.parts other) other lines others behind × (bare behind ≡ bare after) }
{}

/// A told log has one verdict, from whichever opening of its script's plan it is replayed.
pub fn law_of_verdicts()
    ensures replayed { (outside : Outside) (plan : PlanValue) (files : PlayFiles) (one other : World)
        → IsReady plan files → HaveOwnNames plan.parts → IsOpening plan files one → IsOpening plan files other → AreTelling other
        → (text : List ℕ) (verdict also : Verdict) → IsVerdictFrom outside plan one text verdict → IsVerdictFrom outside plan other text also → also ≡ verdict }
    ensures one { (script log : List ℕ) (outside : Outside) (verdict other : Verdict)
        → IsAudited script log outside verdict → IsAudited script log outside other → other ≡ verdict }
{}
