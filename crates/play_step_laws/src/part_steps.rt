//! What a claim of a component's work and its finish are in a world of a play, in both directions: a step. Stated on
//! functions that do nothing.

ghost use Rattle.std.specs.Prelude.{Bool, None, Some, ◌≡◌, ◌⊎◌, ℕ, ◌<◌, false, Result, Ok, slice_get};
ghost use Rattle.omx_types.specs.declared.error.OmxError.{OmxError};
ghost use Rattle.omx_types.specs.declared.handle.Handle.{Handle};
ghost use Rattle.il_machine.specs.Claims.{Claim, Claimed, ClaimedBusy, ClaimedWork, WorkSeen};
ghost use Rattle.il_machine.specs.Finishing.{Finish};
ghost use Rattle.il_machine.specs.Stepping.{IsDoneOf, WorkDone};
ghost use Rattle.il_machine.specs.World.{Component, Work, World};
ghost use Rattle.play_model.specs.Acts.{Act, CanAct, acted};
ghost use Rattle.play_model.specs.Play.{Play};
ghost use Rattle.play_world_laws.specs.Cast.{components_of, script_place};
ghost use Rattle.play_world_laws.specs.Worlds.{Names};
ghost use Rattle.play_world_laws.specs.PlayWorlds.{IsPlayWorld, PlayCast};
ghost use Rattle.play_world_laws.specs.Leading.{PlayLeadsTo};

/// A claim is nothing for the play: a header of a work stands as if it were still in its port. A component of which no work is out gets
/// one that doesn't announce exactly where the model can make a step of it.
pub fn law_of_play_claims()
    ensures taken { (cast : PlayCast) (recent : ℕ) (play : Play) (world : World) (place : ℕ) (handle : Handle) (result : Result Claimed OmxError) (after : World)
        → IsPlayWorld cast recent play world → place < components_of cast.cast → Names cast.cast world place handle → Claim world handle result after → (after ≡ world) ⊎ PlayLeadsTo cast recent play after }
    ensures done { (cast : PlayCast) (recent : ℕ) (play : Play) (world : World) (place number : ℕ) (last : Bool) (handle : Handle) (result : Result Claimed OmxError) (after : World) (component : Component)
        → IsPlayWorld cast recent play world → CanAct (cast.cast).layout play (Act.Step place number last) → Names cast.cast world place handle → slice_get world.components (script_place cast.cast place) ≡ Some component
        → component.work ≡ None → Claim world handle result after → (work : WorkSeen) × (result ≡ Ok (ClaimedWork work)) × (work.announces ≡ false) × PlayLeadsTo cast recent play after }
    ensures can { (cast : PlayCast) (recent : ℕ) (play : Play) (world : World) (place : ℕ) (handle : Handle) (result : Result Claimed OmxError) (after : World) (work : WorkSeen)
        → IsPlayWorld cast recent play world → place < components_of cast.cast → Names cast.cast world place handle → Claim world handle result after → result ≡ Ok (ClaimedWork work)
        → work.announces ≡ false → (number : ℕ) × (last : Bool) × CanAct (cast.cast).layout play (Act.Step place number last) }
    ensures busy { (cast : PlayCast) (recent : ℕ) (play : Play) (world : World) (place : ℕ) (handle : Handle) (result : Result Claimed OmxError) (after : World) (component : Component) (work : Work)
        → IsPlayWorld cast recent play world → place < components_of cast.cast → Names cast.cast world place handle → slice_get world.components (script_place cast.cast place) ≡ Some component
        → component.work ≡ Some work → Claim world handle result after → (result ≡ Ok ClaimedBusy) × (after ≡ world) }
{}

/// A work that is out and doesn't announce comes back without a fault: that is a step of its component in the model, and as long as it is
/// out the model can make one.
pub fn law_of_play_finishes()
    ensures done { (cast : PlayCast) (recent : ℕ) (play : Play) (world : World) (place : ℕ) (component : Component) (work : Work) (done : WorkDone) (after : World)
        → IsPlayWorld cast recent play world → place < components_of cast.cast → slice_get world.components (script_place cast.cast place) ≡ Some component → component.work ≡ Some work
        → work.announces ≡ false → done.component ≡ script_place cast.cast place → IsDoneOf world component work done → done.fault ≡ None → Finish world done after
        → (last : Bool) × CanAct (cast.cast).layout play (Act.Step place done.frames last) × PlayLeadsTo cast recent (acted (cast.cast).layout (Act.Step place done.frames last) play) after }
    ensures can { (cast : PlayCast) (recent : ℕ) (play : Play) (world : World) (place : ℕ) (component : Component) (work : Work)
        → IsPlayWorld cast recent play world → place < components_of cast.cast → slice_get world.components (script_place cast.cast place) ≡ Some component → component.work ≡ Some work
        → work.announces ≡ false → (number : ℕ) × (last : Bool) × CanAct (cast.cast).layout play (Act.Step place number last) }
{}
