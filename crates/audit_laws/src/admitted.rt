//! The lines of a log in the order of a play. Stated on a function that does nothing.

ghost use Rattle.std.specs.Prelude.{◌≡◌, ◌≤◌, ◌++◌, ◌∷◌, [], List, length};
ghost use Rattle.omx_types.specs.declared.handle.Handle.{Handle};
ghost use Rattle.il_machine.specs.World.{World};
ghost use Rattle.play_model.specs.Numbers.{to_loaded};
ghost use Rattle.play_build_laws.specs.Stages.{IsStage, Joining};
ghost use Rattle.play_forms.specs.Plans.{PlanValue};
ghost use Rattle.play_log.specs.Entries.{Entry, steps_of};
ghost use Rattle.play_log.specs.Lines.{LogLine};
ghost use Rattle.play_log.specs.Naming.{NameAll};
ghost use Rattle.play_log.specs.Scenes.{HaveOwnNames, scene_of};
ghost use Rattle.play_plan_laws.specs.Assemblies.{IsReady, PlayFiles, assembly_of};
ghost use Rattle.play_result_laws.specs.Asked.{IsConducted, tuned};
ghost use Rattle.play_history_laws.specs.Order.{Cursor};
ghost use Rattle.play_history_laws.specs.Askings.{IsPlanHistory};
ghost use Rattle.audit_order.specs.Steps.{IsComplete, OrderValue};
ghost use Rattle.audit_forms.specs.Audited.{ComesNext};
ghost use Rattle.audit_forms.specs.Told.{nothing_told, told_after};
ghost use Rattle.audit_laws.specs.Admitted.{AdmitsLines};

/// Lines go on by one that comes next. From the assembled graph of a plan on, the entries that such lines name are a history of the plan's
/// play, whatever the lines say of its replies; where all was asked the last StateSet was sent to all. The other way round, lines that name
/// conducted entries are such lines, and all was asked.
pub fn law_of_admitted_lines()
    ensures goes_on { (plan : PlanValue) (lines : List LogLine) (line : LogLine) (order next : OrderValue)
        → AdmitsLines plan lines order → ComesNext plan (told_after lines plan.parts (nothing_told plan.parts)) order (line.said).act next
        → AdmitsLines plan (lines ++ line ∷ []) next }
    ensures requested { (plan : PlanValue) (files : PlayFiles) (handles : List Handle) (world : World)
        → IsReady plan files → IsStage (assembly_of plan files) (Joining (length plan.joints)) handles world → HaveOwnNames plan.parts
        → (lines : List LogLine) (entries : List Entry) (after : World) (order : OrderValue)
        → NameAll (scene_of plan.parts world) world lines entries after → AdmitsLines plan lines order
        → (cursor : Cursor) × IsPlanHistory plan files handles world (steps_of entries) cursor after
        × (IsComplete plan order → 1 ≤ length plan.parts → (cursor.phase ≡ to_loaded) × (length plan.parts ≤ cursor.sent)) }
    ensures admitted { (plan : PlanValue) (files : PlayFiles) (handles : List Handle) (world : World)
        → IsReady plan files → IsStage (assembly_of plan files) (Joining (length plan.joints)) handles world → HaveOwnNames plan.parts
        → (lines : List LogLine) (entries : List Entry) (after : World)
        → NameAll (scene_of plan.parts world) world lines entries after → IsConducted (tuned plan files) handles (steps_of entries)
        → (order : OrderValue) × AdmitsLines plan lines order × IsComplete plan order }
{}
