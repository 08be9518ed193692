//! What the gates of a play's workers tell of its log, stated on a function that does nothing.

ghost use Rattle.std.specs.Prelude.{◌≡◌, ◌⊎◌, ◌<◌, ◌≤◌, ℕ, List, All, Option, Some, length, slice_get};
ghost use Rattle.il_machine.specs.World.{World};
ghost use Rattle.script_lang.specs.declared.play_line.PartLine.{PartLine};
ghost use Rattle.play_forms.specs.Plans.{PlanValue};
ghost use Rattle.play_plan_laws.specs.Assemblies.{PlayFiles};
ghost use Rattle.play_log.specs.Entries.{Entry, printed};
ghost use Rattle.play_log.specs.Lines.{LogLine};
ghost use Rattle.play_log.specs.Naming.{NameAll};
ghost use Rattle.play_log.specs.Scenes.{HaveOwnNames, Scene, scene_of};
ghost use Rattle.play_result_laws.specs.Gates.{GatesMeet, GatesTell, claims_by, works_by};
ghost use Rattle.play_result_laws.specs.Passes.{IsPassOf};
ghost use Rattle.play_result_laws.specs.Worlds.{IsOpening};

/// A log has as many lines `claim NAME = work` with a pass as the component of that name gave works to it. So gates that count the works
/// of a history tell these lines of its log; and in a play by workers each of them is counted, since the pass that conducts has none.
pub fn law_of_gates<G>()
    ensures claims { (plan : PlanValue) (files : PlayFiles) (opening after : World) (lines : List LogLine) (history : List Entry)
        (pass place : ℕ) (part : PartLine) → HaveOwnNames plan.parts → IsOpening plan files opening
        → NameAll (scene_of plan.parts opening) opening lines (printed history) after → slice_get plan.parts place ≡ Some part
        → claims_by pass part.name lines ≡ works_by pass place history }
    ensures tells { (counts : G → Option (ℕ → ℕ)) (gates : List G) (plan : PlanValue) (files : PlayFiles) (opening after : World)
        (lines : List LogLine) (history : List Entry) → HaveOwnNames plan.parts → IsOpening plan files opening
        → NameAll (scene_of plan.parts opening) opening lines (printed history) after
        → GatesMeet counts 1 gates (length plan.parts) history → GatesTell counts 1 gates plan.parts lines }
    ensures counted { (workers pass : ℕ) (scene : Scene) (world after : World) (lines : List LogLine) (entries : List Entry)
        (name : List ℕ) → 1 ≤ workers → All (IsPassOf workers) entries → NameAll scene world lines entries after
        → (pass ≡ 0) ⊎ (workers < pass) → claims_by pass name lines ≡ 0 }
{}
