//! Where a play with late sources begins, and where it stands once it is over. Stated on functions that do nothing.

ghost use Rattle.std.specs.Prelude.{◌≡◌, ℕ, List, length};
ghost use Rattle.omx_types.specs.declared.handle.Handle.{Handle};
ghost use Rattle.il_machine.specs.Run.{Run};
ghost use Rattle.il_machine.specs.World.{World, no_world};
ghost use Rattle.play_build_laws.specs.Building.{building};
ghost use Rattle.play_build_laws.specs.Stages.{IsStage, Joining};
ghost use Rattle.play_build_laws.specs.Dismantling.{AreLinks, IsParted};
ghost use Rattle.conductor.specs.Casting as conductors;
ghost use Rattle.play_forms.specs.Plans.{IsValid, PlanValue};
ghost use Rattle.play_model.specs.Play.{Play};
ghost use Rattle.play_model.specs.Reached.{IsOver};
ghost use Rattle.play_world_laws.specs.Cast.{links_of};
ghost use Rattle.play_world_laws.specs.Openings.{opening};
ghost use Rattle.play_plan_laws.specs.Assemblies.{IsReady, PlayFiles, assembly_of, play_cast_of};
ghost use Rattle.play_plan_laws.specs.Endings.{IsPlayedOut, ends_of};
ghost use Rattle.play_world_laws.specs.PlayWorlds.{IsPlayWorld, PlayCast};
ghost use Rattle.play_world_laws.specs.Waiting.{IsWaiting};
ghost use Rattle.play_turn_laws.specs.Playing.{IsBetweenTurns};
ghost use Rattle.play_turn_laws.specs.Sides.{sides_of};

/// The graph of a plan that is ready, once it is assembled, is a world of the plan's play in which nothing was begun, also with late
/// sources; and with its conductor the play begins.
pub fn law_of_play_beginnings()
    ensures begins { (plan : PlanValue) (files : PlayFiles) (handles : List Handle) (recent : ℕ) (world : World) → IsReady plan files
        → IsStage (assembly_of plan files) (Joining (length plan.joints)) handles world
        → IsPlayWorld (play_cast_of plan) recent opening world × IsWaiting ((play_cast_of plan).cast).layout opening }
    ensures built { (plan : PlanValue) (files : PlayFiles) (key : ℕ) (handles : List Handle) (recent : ℕ) (world : World) → IsReady plan files
        → length handles ≡ length plan.parts → Run (no_world key plan.units) (building (assembly_of plan files) handles) world
        → IsPlayWorld (play_cast_of plan) recent opening world × IsWaiting ((play_cast_of plan).cast).layout opening }
    ensures plays { (plan : PlanValue) (files : PlayFiles) (handles : List Handle) (recent : ℕ) (world : World) → IsReady plan files
        → IsStage (assembly_of plan files) (Joining (length plan.joints)) handles world
        → IsBetweenTurns (play_cast_of plan) recent opening world (conductors.cast_of plan) }
{}

/// Where a play is over all its components are at their end with all its links and no header, so that its graph can be taken apart.
pub fn law_of_play_ends()
    ensures links { (cast : PlayCast) (recent : ℕ) (play : Play) (world : World) → IsPlayWorld cast recent play world → AreLinks (sides_of cast.cast) (links_of cast.cast) }
    ensures joined { (cast : PlayCast) (recent : ℕ) (play : Play) (world : World) → IsPlayWorld cast recent play world → IsOver (cast.cast).layout play
        → IsParted (sides_of cast.cast) (links_of cast.cast) 0 world }
    ensures plan_links { (plan : PlanValue) (recent : ℕ) (play : Play) (world : World) → IsValid plan → IsPlayWorld (play_cast_of plan) recent play world
        → AreLinks (ends_of plan) (length plan.joints) }
    ensures plan { (plan : PlanValue) (recent : ℕ) (play : Play) (world : World) → IsValid plan → IsPlayWorld (play_cast_of plan) recent play world
        → IsOver ((play_cast_of plan).cast).layout play
        → IsPlayedOut plan world }
{}
