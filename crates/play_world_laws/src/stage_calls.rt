//! What the sends, the runs and the notes of a component are in a world of a play, in both directions. Stated on
//! functions that do nothing.

ghost use Rattle.std.specs.Prelude.{◌≡◌, ◌⊎◌, ℕ, ◌<◌, true, Some, Result, Ok, slice_get};
ghost use Rattle.omx_types.specs.declared.command.Command.TheVariants.{StateSet};
ghost use Rattle.omx_types.specs.declared.error.OmxError.{OmxError};
ghost use Rattle.omx_types.specs.declared.handle.Handle.{Handle};
ghost use Rattle.il_machine.specs.declared.answer.Acted.{Acted};
ghost use Rattle.il_machine.specs.declared.answer.Acted.TheVariants.{Did};
ghost use Rattle.il_machine.specs.Commands.{RunCommand, SendCommand};
ghost use Rattle.il_machine.specs.Notes.{EndNote, TakeNote, Took};
ghost use Rattle.il_machine.specs.World.{Component, World};
ghost use Rattle.play_model.specs.Numbers.{state_reached};
ghost use Rattle.play_model.specs.Acts.{Act, CanAct, acted};
ghost use Rattle.play_model.specs.Play.{Play};
ghost use Rattle.play_world_laws.specs.Cast.{components_of, script_place};
ghost use Rattle.play_world_laws.specs.Standing.{target};
ghost use Rattle.play_world_laws.specs.Worlds.{Names};
ghost use Rattle.play_world_laws.specs.PlayWorlds.{IsPlayWorld, PlayCast};
ghost use Rattle.play_world_laws.specs.Leading.{PlayLeadsTo};

/// What the conductor sends to a component of its StateSet is accepted, and the component runs it where the model can.
pub fn law_of_stages()
    ensures sent { (cast : PlayCast) (recent : ℕ) (play : Play) (world : World) (place : ℕ) (handle : Handle) (result : Result (Unit {0}) OmxError) (after : World)
        → IsPlayWorld cast recent play world → CanAct (cast.cast).layout play (Act.Send place) → Names cast.cast world place handle → SendCommand world handle (StateSet (target play.phase)) result after
        → (result ≡ Ok tt) × PlayLeadsTo cast recent (acted (cast.cast).layout (Act.Send place) play) after }
    ensures ran { (cast : PlayCast) (recent : ℕ) (play : Play) (world : World) (place : ℕ) (handle : Handle) (result : Result Acted OmxError) (after : World)
        → IsPlayWorld cast recent play world → CanAct (cast.cast).layout play (Act.Run place) → Names cast.cast world place handle → RunCommand world handle result after
        → (result ≡ Ok Did) × PlayLeadsTo cast recent (acted (cast.cast).layout (Act.Run place) play) after }
{}

/// A note that is taken is nothing for the play; the client object is given back once the completion of the StateSet was heard, or the
/// end of a sink's stream.
pub fn law_of_play_notes()
    ensures taken { (cast : PlayCast) (recent : ℕ) (play : Play) (world : World) (place : ℕ) (handle : Handle) (result : Result Took OmxError) (after : World)
        → IsPlayWorld cast recent play world → place < components_of cast.cast → Names cast.cast world place handle → TakeNote world handle result after → (after ≡ world) ⊎ PlayLeadsTo cast recent play after }
    ensures told { (cast : PlayCast) (recent : ℕ) (play : Play) (world : World) (place : ℕ) (handle : Handle) (after : World) (component : Component)
        → IsPlayWorld cast recent play world → place < components_of cast.cast → Names cast.cast world place handle → slice_get world.components (script_place cast.cast place) ≡ Some component
        → component.client_out ≡ true → EndNote world handle after → play.stage place ≡ state_reached
        → CanAct (cast.cast).layout play (Act.Tell place) × PlayLeadsTo cast recent (acted (cast.cast).layout (Act.Tell place) play) after }
    ensures told_end { (cast : PlayCast) (recent : ℕ) (play : Play) (world : World) (place : ℕ) (handle : Handle) (after : World) (component : Component)
        → IsPlayWorld cast recent play world → CanAct (cast.cast).layout play (Act.TellEnd place) → Names cast.cast world place handle → slice_get world.components (script_place cast.cast place) ≡ Some component
        → component.client_out ≡ true → EndNote world handle after → PlayLeadsTo cast recent (acted (cast.cast).layout (Act.TellEnd place) play) after }
{}
