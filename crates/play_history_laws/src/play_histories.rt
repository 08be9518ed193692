//! The law of play histories: whoever makes the acts of a play, and in whatever order, as long as the conductor asks only for what it may
//! ask for then, each world on the way is a world of the play, and the bytes on their way are those of the plain functions. Stated on a
//! function that does nothing.

ghost use Rattle.std.specs.Prelude.{List, Some, false, slice_get, ◌≡◌, ◌≤◌, ℕ};
ghost use Rattle.il_machine.specs.Acts.{Act, Reply};
ghost use Rattle.il_machine.specs.Due.{IsClosed};
ghost use Rattle.il_machine.specs.Run.{Meets, Step};
ghost use Rattle.il_machine.specs.World.{Component, World};
ghost use Rattle.play_model.specs.Content.{ArePlain};
ghost use Rattle.play_model.specs.Numbers.{to_loaded};
ghost use Rattle.play_model.specs.Play.{Play};
ghost use Rattle.play_model.specs.Reached.{IsOver};
ghost use Rattle.play_world_laws.specs.Openings.{opening};
ghost use Rattle.play_stream_laws.specs.Contents.{PlayContents, network_of};
ghost use Rattle.play_stream_laws.specs.Fronts.{AreFronts, AreWritten};
ghost use Rattle.play_world_laws.specs.PlayWorlds.{IsPlayWorld, PlayCast};
ghost use Rattle.play_world_laws.specs.Waiting.{IsWaiting};
ghost use Rattle.play_stream_laws.specs.PlayStreams.{HasPlayStreams};
ghost use Rattle.read_world_laws.specs.Inside.{inside};
ghost use Rattle.play_history_laws.specs.Following.{HasTaken, IsLoadedAt, IsTaken};
ghost use Rattle.play_history_laws.specs.Histories.{IsAllowed, IsPlayHistory};
ghost use Rattle.play_history_laws.specs.Order.{Cursor, nothing_asked};

/// From the world in which nothing was asked each act that is allowed leads from a world of the play to one, and so does each history. Where
/// all was asked and the world is at rest the play is over. From the second Idle on each sink's file has taken what is written of its whole
/// stream; at each moment a front of that.
pub fn law_of_play_histories()
    ensures begins { (cast : PlayCast) (recent : ℕ) (world : World)
        → IsPlayWorld cast recent opening world → IsWaiting (cast.cast).layout opening → IsClosed world
        → ((place : ℕ) (component : Component) → slice_get world.components place ≡ Some component → component.client_out ≡ false)
        → IsTaken cast (nothing_asked cast.cast) recent opening world }
    ensures one { (cast : PlayCast) (cursor : Cursor) (recent : ℕ) (play : Play) (world : World) → IsTaken cast cursor recent play world
        → (act : Act) (reply : Reply) (after : World) (next : Cursor)
        → Meets world act → Step world act reply after → IsAllowed cast cursor (inside world) act next → HasTaken cast cursor recent play next world after }
    ensures comes { (cast : PlayCast) (steps : List (Act × Reply)) (cursor : Cursor) (recent : ℕ) (play : Play) (world : World) (next : Cursor) (after : World)
        → IsTaken cast cursor recent play world → IsPlayHistory cast cursor world steps next after → HasTaken cast cursor recent play next world after }
    ensures over { (cast : PlayCast) (cursor : Cursor) (recent : ℕ) (play : Play) (world : World) → IsTaken cast cursor recent play world → cursor.phase ≡ to_loaded
        → ((place : ℕ) (component : Component) → slice_get world.components place ≡ Some component → IsLoadedAt component)
        → IsOver (cast.cast).layout play }
    ensures whole { (cast : PlayCast) (contents : PlayContents) (cursor : Cursor) (recent : ℕ) (play : Play) (world : World) (stream : ℕ → List ℕ)
        → IsTaken cast cursor recent play world → HasPlayStreams cast contents play (inside world)
        → ArePlain (network_of cast.cast) contents.model stream → 3 ≤ cursor.phase → AreWritten cast.cast contents world stream }
    ensures fronts { (cast : PlayCast) (contents : PlayContents) (cursor : Cursor) (recent : ℕ) (play : Play) (world : World) (stream : ℕ → List ℕ)
        → IsTaken cast cursor recent play world → HasPlayStreams cast contents play (inside world)
        → ArePlain (network_of cast.cast) contents.model stream → AreFronts cast.cast contents world stream }
{}
