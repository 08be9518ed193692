//! What must hold of runs of the machine, stated on functions that do nothing: one behind another, the handles of their worlds, what they
//! give to clients, and a client object that is out.

ghost use Rattle.std.specs.Prelude.{◌≡◌, ◌<◌, ◌++◌, ℕ, false, List, All, Option, Some, Ok, Result, slice_get};
ghost use Rattle.omx_types.specs.declared.handle.Handle.{Handle};
ghost use Rattle.omx_types.specs.declared.error.OmxError.{OmxError};
ghost use Rattle.part_api.specs.declared.attached.Attached.{Attached};
ghost use Rattle.il_machine.specs.World.{Component, World, component_numbered};
ghost use Rattle.il_machine.specs.Answers.{component_named};
ghost use Rattle.il_machine.specs.Acts.{Act, Reply};
ghost use Rattle.il_machine.specs.Acts as acts;
ghost use Rattle.il_machine.specs.Notes.{Took, TookBusy};
ghost use Rattle.il_machine.specs.Run.{Meets, Step, Run};
ghost use Rattle.il_machine.specs.Sound.{Sound};
ghost use Rattle.il_machine.specs.Queued.{notes_given, notes_of, queued_for};
ghost use Rattle.il_machine.specs.Trails.{Move, RunMoves};
ghost use Rattle.history_laws.specs.Given.{is_freed_by};
ghost use Rattle.history_laws.specs.GivenIn.{given_in};
ghost use Rattle.history_laws.specs.Objects.{IsObjectOut, IsRefused};

/// Two runs, the second from where the first one ended, are one; and a run is two wherever it is cut. Each run has its moves.
pub fn law_of_joined_runs()
    ensures joined { (world after middle : World) (steps ys : List (Act × Reply)) → Run world steps after → Run after ys middle → Run world (steps ++ ys) middle }
    ensures cut { (world after : World) (steps ys : List (Act × Reply)) → Run world (steps ++ ys) after → (middle : World) × Run world steps middle × Run middle ys after }
    ensures moves { (world after : World) (steps : List (Act × Reply)) → Run world steps after → (ms : List Move) × RunMoves world steps ms after }
{}

/// A component's own handle names it and has a number that was given, and no other component has that number. A handle names its component
/// as long as that isn't freed.
pub fn law_of_handles()
    ensures own { (world : World) (index : ℕ) (component : Component) → Sound world → slice_get world.components index ≡ Some component → component_named component.handle world.components ≡ Some component }
    ensures below { (world : World) (handle : Handle) (component : Component) → Sound world → component_named handle world.components ≡ Some component → handle.generation < world.numbered }
    ensures one { (world : World) (handle other_handle : Handle) (component other_component : Component)
        → Sound world → component_named handle world.components ≡ Some component → component_named other_handle world.components ≡ Some other_component → handle.generation ≡ other_handle.generation → handle ≡ other_handle }
    ensures stays { (world : World) (act : Act) (reply : Reply) (after : World) (handle : Handle) (component : Component)
        → Sound world → Meets world act → Step world act reply after → is_freed_by handle.generation act reply ≡ false → component_named handle world.components ≡ Some component
        → (other_component : Component) × (component_named handle after.components ≡ Some other_component) }
    ensures numbered { (world : World) (act : Act) (reply : Reply) (after : World) (handle : Handle) (component other_component : Component)
        → Sound world → Meets world act → Step world act reply after → component_named handle world.components ≡ Some component
        → component_numbered handle.generation after ≡ Some other_component → component_named handle after.components ≡ Some other_component }
{}

/// What the acts of a run gave with a component's client object is, in their order and each once, what was given for the component beyond
/// what was given before: a front of all that was queued for it.
pub fn law_of_deliveries()
    ensures given { (world after : World) (steps : List (Act × Reply)) (number : ℕ)
        → Sound world → Run world steps after → All (λ x. is_freed_by number x.0 x.1 ≡ false) steps
        → notes_given number after ≡ notes_given number world ++ given_in number steps }
    ensures front { (world after : World) (steps : List (Act × Reply)) (number : ℕ)
        → Sound world → Run world steps after → All (λ x. is_freed_by number x.0 x.1 ≡ false) steps
        → queued_for number after ≡ (notes_given number world ++ given_in number steps) ++ notes_of (component_numbered number after) }
{}

/// While a component's client object is out, no note of it is given, and it isn't freed.
pub fn law_of_objects()
    ensures busy { (world after : World) (handle : Handle) (result : Result Took OmxError)
        → IsObjectOut handle world → Step world (acts.TakeNote handle) (acts.Took result) after → (result ≡ Ok TookBusy) × (after ≡ world) }
    ensures stays { (world after : World) (handle : Handle) (result : Result (Option Attached) OmxError)
        → IsObjectOut handle world → Step world (acts.FreeHandle handle) (acts.Removed result) after → IsRefused result world after }
{}
