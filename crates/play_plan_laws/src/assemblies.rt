//! The graph of a plan is assembled from its plan and its files, and then stands where the play begins. Stated on functions that do
//! nothing.

ghost use Rattle.std.specs.Prelude.{List, length};
ghost use Rattle.omx_types.specs.declared.handle.Handle.{Handle};
ghost use Rattle.il_machine.specs.World.{World};
ghost use Rattle.play_forms.specs.Plans.{PlanValue};
ghost use Rattle.play_build_laws.specs.Assembly.{IsLawful};
ghost use Rattle.play_build_laws.specs.Stages.{IsStage, Joining};
ghost use Rattle.play_world_laws.specs.Openings.{IsOpeningWorld};
ghost use Rattle.play_plan_laws.specs.Assemblies.{IsReady, PlayFiles, assembly_of, play_cast_of};

/// The assembly of a plan that is ready is lawful, so each of its acts is accepted. It leads to the world in which the play of
/// the plan begins, with each link supplied by its input.
pub fn law_of_assemblies()
    ensures lawful { (plan : PlanValue) (files : PlayFiles) → IsReady plan files → IsLawful (assembly_of plan files) }
    ensures late { (plan : PlanValue) (files : PlayFiles) (handles : List Handle) (world : World) → IsReady plan files
        → IsStage (assembly_of plan files) (Joining (length plan.joints)) handles world → IsOpeningWorld (play_cast_of plan) world }
{}
