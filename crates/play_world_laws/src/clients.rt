//! Which act of the model it is that a client object comes back, in a world of a play; and that what the model can
//! tell is queued. Stated on a function that does nothing.

ghost use Rattle.std.specs.Prelude.{Some, ◌≡◌, ◌⊎◌, ℕ, ◌<◌, false, true, slice_get};
ghost use Rattle.omx_types.specs.declared.command.Event.{Event};
ghost use Rattle.omx_types.specs.declared.command.Note.{Note};
ghost use Rattle.omx_types.specs.declared.command.Note.TheVariants.{Told};
ghost use Rattle.omx_types.specs.declared.handle.Handle.{Handle};
ghost use Rattle.il_machine.specs.Lists.{is_empty};
ghost use Rattle.il_machine.specs.Notes.{EndNote};
ghost use Rattle.il_machine.specs.World.{Component, World};
ghost use Rattle.play_model.specs.Acts.{Act, CanAct, acted};
ghost use Rattle.play_model.specs.Play.{Play};
ghost use Rattle.play_world_laws.specs.Cast.{components_of, script_place};
ghost use Rattle.play_world_laws.specs.Worlds.{Names};
ghost use Rattle.play_world_laws.specs.PlayWorlds.{IsPlayWorld, PlayCast};
ghost use Rattle.play_world_laws.specs.Leading.{PlayLeadsTo};
ghost use Rattle.play_world_laws.specs.Tellings.{IsTellingOf};

/// A client object that is given back has told what the model can tell of its component, whichever note it was. What the model can
/// tell is queued, or out with the client object; and each note is an event.
pub fn law_of_play_tellings()
    ensures told { (cast : PlayCast) (recent : ℕ) (play : Play) (world : World) (place : ℕ) (handle : Handle) (after : World) (component : Component)
        → IsPlayWorld cast recent play world → place < components_of cast.cast → Names cast.cast world place handle → slice_get world.components (script_place cast.cast place) ≡ Some component
        → component.client_out ≡ true → EndNote world handle after
        → (act : Act) × IsTellingOf (cast.cast).layout place act × CanAct (cast.cast).layout play act × PlayLeadsTo cast recent (acted (cast.cast).layout act play) after }
    ensures queued { (cast : PlayCast) (recent : ℕ) (play : Play) (world : World) (place : ℕ) (component : Component) (act : Act)
        → IsPlayWorld cast recent play world → slice_get world.components (script_place cast.cast place) ≡ Some component
        → IsTellingOf (cast.cast).layout place act → CanAct (cast.cast).layout play act → (component.client_out ≡ true) ⊎ (is_empty component.notes ≡ false) }
    ensures event { (cast : PlayCast) (recent : ℕ) (play : Play) (world : World) (place : ℕ) (component : Component) (note : Note)
        → IsPlayWorld cast recent play world → place < components_of cast.cast → slice_get world.components (script_place cast.cast place) ≡ Some component
        → component.client_out ≡ false → slice_get component.notes 0 ≡ Some note → (event : Event) × (note ≡ Told event) }
{}
