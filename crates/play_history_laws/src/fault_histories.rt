//! The law of play histories in which any number of steps fail while all others go on: each world on the way is one of the play, read without
//! its faults, and the file of each sink has taken a front of its whole stream. Stated on functions that do nothing.

ghost use Rattle.std.specs.Prelude.{All, List, Some, [], slice_get, ◌≡◌, ◌≤◌, ◌⊎◌, ℕ};
ghost use Rattle.omx_types.specs.declared.handle.Handle.{Handle};
ghost use Rattle.il_machine.specs.Acts.{Act, Reply};
ghost use Rattle.il_machine.specs.Components.{no_progress};
ghost use Rattle.il_machine.specs.Run.{Meets, Run, Step};
ghost use Rattle.il_machine.specs.Sound.{Sound};
ghost use Rattle.il_machine.specs.World.{Component, Stream, World, place_of};
ghost use Rattle.history_laws.specs.GivenIn.{given_in};
ghost use Rattle.play_model.specs.Content.{ArePlain};
ghost use Rattle.play_model.specs.Numbers.{to_loaded};
ghost use Rattle.play_model.specs.Play.{Play};
ghost use Rattle.play_model.specs.Reached.{IsOver};
ghost use Rattle.play_world_laws.specs.Telling.{heard, progress_by};
ghost use Rattle.play_stream_laws.specs.Contents.{PlayContents, network_of};
ghost use Rattle.play_stream_laws.specs.Fronts.{AreFronts, AreWritten};
ghost use Rattle.play_world_laws.specs.PlayWorlds.{PlayCast};
ghost use Rattle.play_stream_laws.specs.PlayStreams.{HasPlayStreams};
ghost use Rattle.read_world_laws.specs.Inside.{inside, taken_in};
ghost use Rattle.read_world_laws.specs.Mended.{mend, mended};
ghost use Rattle.play_history_laws.specs.Following.{IsLoadedAt, IsTaken};
ghost use Rattle.play_history_laws.specs.Histories.{IsUnasked};
ghost use Rattle.play_history_laws.specs.Order.{Cursor, IsAsked};
ghost use Rattle.play_history_laws.specs.Faults.{HasFaulted, HasFaultStreams, IsAccepted, IsAnyAllowed, IsFailedStep, IsFaultHistory, IsFaulty, IsFresh, NoneFailed};
ghost use Rattle.play_history_laws.specs.Telling.{IsAlike};

/// A world in which nothing failed, was told or is out is read as it is. Each act that is allowed, a step that fails too, leads from a
/// world of the play to one, and so does each history; steps that nobody need ask for are one. What is asked is accepted. Where all was asked and the world is at rest the play is over. From the second Idle
/// on no step has failed, and each sink's file has taken what is written of its whole stream; at each moment a front of that, also where
/// its step failed.
pub fn law_of_fault_histories()
    ensures begins { (cast : PlayCast) (cursor : Cursor) (recent : ℕ) (play : Play) (world : World)
        → IsTaken cast cursor recent play world → Sound world → IsFresh world → IsFaulty cast cursor recent play world.streams world }
    ensures flows { (cast : PlayCast) (contents : PlayContents) (stream : ℕ → List ℕ) (play : Play) (world : World)
        → IsFresh world → HasPlayStreams cast contents play (inside world) → HasFaultStreams cast contents stream play world.streams world }
    ensures one { (cast : PlayCast) (cursor : Cursor) (recent : ℕ) (play : Play) (streams : List Stream) (world : World)
        → IsFaulty cast cursor recent play streams world → (act : Act) (reply : Reply) (after : World) (next : Cursor)
        → Meets world act → Step world act reply after → IsAnyAllowed cast cursor (inside (mend world.streams world)) act next
        → HasFaulted cast cursor recent play next streams world after }
    ensures comes { (cast : PlayCast) (steps : List (Act × Reply)) (cursor : Cursor) (recent : ℕ) (play : Play) (streams : List Stream) (world : World)
        (next : Cursor) (after : World)
        → IsFaulty cast cursor recent play streams world → IsFaultHistory cast cursor world steps next after
        → HasFaulted cast cursor recent play next streams world after }
    ensures accepted { (cast : PlayCast) (cursor : Cursor) (recent : ℕ) (play : Play) (streams : List Stream) (world : World)
        → IsFaulty cast cursor recent play streams world → (act : Act) (reply : Reply) (after : World) (next : Cursor)
        → Step world act reply after → IsAsked cast cursor (inside (mend world.streams world)) act next → IsAccepted reply }
    ensures stays { (cast : PlayCast) (steps : List (Act × Reply)) (cursor : Cursor) (world after : World)
        → Run world steps after → All (λ step. IsUnasked step.0 ⊎ IsFailedStep step.0) steps → IsFaultHistory cast cursor world steps cursor after }
    ensures over { (cast : PlayCast) (cursor : Cursor) (recent : ℕ) (play : Play) (streams : List Stream) (world : World)
        → IsFaulty cast cursor recent play streams world → cursor.phase ≡ to_loaded
        → ((place : ℕ) (component : Component) → slice_get world.components place ≡ Some component → IsLoadedAt component)
        → IsOver (cast.cast).layout play }
    ensures whole { (cast : PlayCast) (steps : List (Act × Reply)) (cursor : Cursor) (recent : ℕ) (play : Play) (streams : List Stream) (world : World)
        (next : Cursor) (after : World)
        → IsFaulty cast cursor recent play streams world → IsFaultHistory cast cursor world steps next after
        → (3 ≤ cursor.phase → NoneFailed world) → 3 ≤ next.phase → NoneFailed after }
    ensures written { (cast : PlayCast) (contents : PlayContents) (cursor : Cursor) (recent : ℕ) (play : Play) (streams : List Stream) (world : World)
        (stream : ℕ → List ℕ)
        → IsFaulty cast cursor recent play streams world → HasFaultStreams cast contents stream play streams world
        → ArePlain (network_of cast.cast) contents.model stream → 3 ≤ cursor.phase → NoneFailed world → AreWritten cast.cast contents world stream }
    ensures fronts { (cast : PlayCast) (contents : PlayContents) (cursor : Cursor) (recent : ℕ) (play : Play) (streams : List Stream) (world : World)
        (stream : ℕ → List ℕ)
        → IsFaulty cast cursor recent play streams world → HasFaultStreams cast contents stream play streams world
        → ArePlain (network_of cast.cast) contents.model stream → AreFronts cast.cast contents world stream }
{}

/// A history frees nothing. What its steps have told of a component is what its client has heard, but for errors; and a handle names its
/// place for ever.
pub fn law_of_told_steps()
    ensures told { (cast : PlayCast) (cursor : Cursor) (recent : ℕ) (play : Play) (streams : List Stream) (world : World)
        → IsFaulty cast cursor recent play streams world → (steps : List (Act × Reply)) (next : Cursor) (after : World)
        → IsFaultHistory cast cursor world steps next after → world.given ≡ []
        → (place : ℕ) (component : Component) → slice_get after.components place ≡ Some component
        → IsAlike (heard (inside (mend after.streams after)) (taken_in (mended component))) (progress_by (given_in place steps) no_progress) }
    ensures named { (cast : PlayCast) (steps : List (Act × Reply)) (cursor : Cursor) (recent : ℕ) (play : Play) (streams : List Stream) (world : World)
        (next : Cursor) (after : World)
        → IsFaulty cast cursor recent play streams world → IsFaultHistory cast cursor world steps next after
        → (handle : Handle) (place : ℕ) → place_of handle world.components ≡ Some place → place_of handle after.components ≡ Some place }
{}
