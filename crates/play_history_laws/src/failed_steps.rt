//! A step of a component's part that fails in a play: once its component is seen without the fault the play is where it
//! was. Stated on a function that does nothing; plays by workers stand on it.

ghost use Rattle.std.specs.Prelude.{Some, false, slice_get, ◌<◌, ◌≡◌, ℕ};
ghost use Rattle.omx_types.specs.declared.fault.PartFault.{PartFault};
ghost use Rattle.il_machine.specs.Stepping.{IsDoneOf, WorkDone};
ghost use Rattle.il_machine.specs.World.{Component, Work, World};
ghost use Rattle.play_model.specs.Play.{Play};
ghost use Rattle.play_world_laws.specs.Cast.{components_of, script_place};
ghost use Rattle.play_world_laws.specs.PlayWorlds.{IsPlayWorld, PlayCast};
ghost use Rattle.play_history_laws.specs.Undone.{IsUndone};

/// A work that comes back with a fault is as if it had not been claimed.
pub fn law_of_failed_steps()
    ensures undone { (cast : PlayCast) (recent : ℕ) (play : Play) (world : World) (number : ℕ) (component : Component) (work : Work) (done : WorkDone) (fault : PartFault)
        → IsPlayWorld cast recent play world → number < components_of cast.cast → slice_get world.components (script_place cast.cast number) ≡ Some component
        → component.work ≡ Some work → work.announces ≡ false → done.component ≡ script_place cast.cast number → IsDoneOf world component work done
        → done.fault ≡ Some fault → IsUndone cast recent play (script_place cast.cast number) component done fault world }
{}
