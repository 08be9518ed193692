//! What a step of a play makes of its streams, and what its sinks have taken in the end: what the plain functions give
//! of the files of its sources. Stated on functions that do nothing.

ghost use Rattle.std.specs.Prelude.{◌≡◌, ℕ, ◌<◌, ◌≤◌, List, [], None, Some, slice_get};
ghost use Rattle.omx_types.specs.declared.fault.PartFault.{PartFault};
ghost use Rattle.il_machine.specs.Finishing.{Finish};
ghost use Rattle.il_machine.specs.Stepping.{IsDoneOf, WorkDone};
ghost use Rattle.il_machine.specs.World.{Component, Work, World};
ghost use Rattle.play_model.specs.Content.{ArePlain};
ghost use Rattle.play_model.specs.Numbers.{back_to_idle};
ghost use Rattle.play_model.specs.Play.{Play};
ghost use Rattle.play_world_laws.specs.Cast.{components_of, script_place};
ghost use Rattle.play_world_laws.specs.PlayWorlds.{IsPlayWorld, PlayCast};
ghost use Rattle.play_stream_laws.specs.Contents.{PlayContents, network_of};
ghost use Rattle.play_stream_laws.specs.Fronts.{AreFronts, AreWritten};
ghost use Rattle.play_stream_laws.specs.Streams.{EachSink};
ghost use Rattle.play_stream_laws.specs.PlayStreams.{HasPlayStreams};

/// A work that comes back without a fault moves the bytes of its step as the model does, and a sink's file takes what the step
/// writes; a late source's announcement moves none.
pub fn law_of_stepped_streams()
    ensures { (cast : PlayCast) (contents : PlayContents) (recent later : ℕ) (play next : Play) (world after : World) (place : ℕ) (component : Component) (work : Work) (done : WorkDone)
        → IsPlayWorld cast recent play world → HasPlayStreams cast contents play world → IsPlayWorld cast later next after → next.phase ≡ play.phase → place < components_of cast.cast
        → slice_get world.components (script_place cast.cast place) ≡ Some component → component.work ≡ Some work
        → done.component ≡ script_place cast.cast place → IsDoneOf world component work done → done.fault ≡ None → Finish world done after → HasPlayStreams cast contents next after }
{}

/// From the second Idle on the file of each sink has taken what is written of its link's whole stream, as the plain functions
/// give it; at each moment before, and after a step that failed, a front of that. That each came empty is kept.
pub fn law_of_written_streams()
    ensures whole { (cast : PlayCast) (contents : PlayContents) (recent : ℕ) (play : Play) (world : World) (stream : ℕ → List ℕ)
        → IsPlayWorld cast recent play world → HasPlayStreams cast contents play world → ArePlain (network_of cast.cast) contents.model stream → back_to_idle ≤ play.phase → AreWritten cast.cast contents world stream }
    ensures fronts { (cast : PlayCast) (contents : PlayContents) (recent : ℕ) (play : Play) (world : World) (stream : ℕ → List ℕ)
        → IsPlayWorld cast recent play world → HasPlayStreams cast contents play world → ArePlain (network_of cast.cast) contents.model stream → AreFronts cast.cast contents world stream }
    ensures failed { (cast : PlayCast) (contents : PlayContents) (recent : ℕ) (play : Play) (world after : World) (place : ℕ) (component : Component) (work : Work) (done : WorkDone) (fault : PartFault) (stream : ℕ → List ℕ)
        → IsPlayWorld cast recent play world → HasPlayStreams cast contents play world → ArePlain (network_of cast.cast) contents.model stream → place < components_of cast.cast
        → slice_get world.components (script_place cast.cast place) ≡ Some component → component.work ≡ Some work
        → done.component ≡ script_place cast.cast place → IsDoneOf world component work done → done.fault ≡ Some fault → Finish world done after → AreFronts cast.cast contents after stream }
    ensures new { (cast : PlayCast) (recent : ℕ) (play : Play) (world after : World) (done : WorkDone) → IsPlayWorld cast recent play world → EachSink cast.cast world (λ l a s. s.known ≡ Some [])
        → Finish world done after → EachSink cast.cast after (λ l a s. s.known ≡ Some []) }
{}
