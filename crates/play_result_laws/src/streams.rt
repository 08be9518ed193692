//! The streams of a plan: what goes through its links and into the files of its sinks is what its plain function says, over the
//! samples of the files of its sources. Stated on functions that do nothing; the play of a plan stands on them.

ghost use Rattle.std.specs.Prelude.{◌≡◌, ℕ, ◌≤◌, Bool, List, [], length, slice_index_or, Some};
ghost use Rattle.il_machine.specs.Finishing.{Finish};
ghost use Rattle.il_machine.specs.Stepping.{WorkDone};
ghost use Rattle.il_machine.specs.World.{World};
ghost use Rattle.play_model.specs.Content.{AreContents, ArePlain};
ghost use Rattle.play_forms.specs.Fitting.{format_into};
ghost use Rattle.play_forms.specs.Plain.{sink_text};
ghost use Rattle.play_forms.specs.Plans.{PlanValue};
ghost use Rattle.play_model.specs.Numbers.{back_to_idle};
ghost use Rattle.play_model.specs.Play.{Play};
ghost use Rattle.play_world_laws.specs.Openings.{opening};
ghost use Rattle.play_plan_laws.specs.Casting.{cast_of};
ghost use Rattle.play_world_laws.specs.PlayWorlds.{IsPlayWorld};
ghost use Rattle.play_plan_laws.specs.Assemblies.{IsReady, PlayFiles, play_cast_of};
ghost use Rattle.play_result_laws.specs.Files.{AreSamples, IsWriter};
ghost use Rattle.play_result_laws.specs.Worlds.{HasWritten, IsOpening};
ghost use Rattle.play_stream_laws.specs.Contents.{network_of};
ghost use Rattle.play_stream_laws.specs.Fronts.{AreFronts};
ghost use Rattle.play_stream_laws.specs.Streams.{AreNew, EachSink};
ghost use Rattle.play_stream_laws.specs.PlayContents.{HasPlayContents};
ghost use Rattle.play_stream_laws.specs.PlayStreams.{HasPlayStreams};
ghost use Rattle.play_result_laws.specs.Contents.{contents_of, streams_of};
ghost use Rattle.play_result_laws.specs.Texts.{CameEmpty, HasWrittenFront, size_of};

/// The parts of a plan that is ready, with the samples of its files, are those of its network, and the plan's plain function gives
/// the network's streams.
pub fn law_of_plan_contents()
    ensures contents { (plan : PlanValue) (files : PlayFiles) (samples : List (List ℕ)) (by_output : ℕ → Bool)
        → IsReady plan files → AreSamples plan files samples
        → AreContents (network_of (cast_of by_output plan)) (contents_of plan files samples).model }
    ensures plain { (plan : PlanValue) (files : PlayFiles) (samples : List (List ℕ)) (by_output : ℕ → Bool)
        → IsReady plan files → AreSamples plan files samples
        → ArePlain (network_of (cast_of by_output plan)) (contents_of plan files samples).model (streams_of plan samples) }
{}

/// In the world in which the play of a plan begins the components are set as the plan's contents say, but for the formats that late
/// sources tell later; the files of its sources hold their samples, and those of its sinks are new: so it has streams, in which
/// nothing flowed yet.
pub fn law_of_plan_openings()
    ensures contents { (plan : PlanValue) (files : PlayFiles) (samples : List (List ℕ)) (world : World)
        → IsReady plan files → AreSamples plan files samples → IsOpening plan files world
        → HasPlayContents (play_cast_of plan) (contents_of plan files samples) world }
    ensures new { (plan : PlanValue) (files : PlayFiles) (samples : List (List ℕ)) (world : World)
        → IsReady plan files → AreSamples plan files samples → IsOpening plan files world
        → AreNew (play_cast_of plan).cast world }
    ensures streams { (plan : PlanValue) (files : PlayFiles) (samples : List (List ℕ)) (world : World)
        → IsReady plan files → AreSamples plan files samples → IsOpening plan files world
        → HasPlayStreams (play_cast_of plan) (contents_of plan files samples) opening world }
{}

/// From the second Idle on the file of each sink has taken its text of the plain function; at each moment before, and after a step
/// that failed, a front of it. It was empty when it came. The whole text has the size of a file of the planned frames.
pub fn law_of_plan_texts()
    ensures whole { (plan : PlanValue) (files : PlayFiles) (samples : List (List ℕ)) (recent : ℕ)
        (play : Play) (world : World) (place : ℕ) (name : List ℕ)
        → IsReady plan files → AreSamples plan files samples → IsPlayWorld (play_cast_of plan) recent play world
        → HasPlayStreams (play_cast_of plan) (contents_of plan files samples) play world → IsWriter plan.parts place name
        → back_to_idle ≤ play.phase → HasWritten world place (sink_text plan samples place) }
    ensures fronts { (plan : PlanValue) (files : PlayFiles) (samples : List (List ℕ)) (recent : ℕ)
        (play : Play) (world : World) (place : ℕ) (name : List ℕ)
        → IsReady plan files → AreSamples plan files samples → IsPlayWorld (play_cast_of plan) recent play world
        → HasPlayStreams (play_cast_of plan) (contents_of plan files samples) play world → IsWriter plan.parts place name
        → HasWrittenFront world place (sink_text plan samples place) }
    ensures new { (plan : PlanValue) (files : PlayFiles) (samples : List (List ℕ)) (recent : ℕ)
        (play : Play) (world : World) (place : ℕ) (name : List ℕ)
        → IsReady plan files → AreSamples plan files samples → IsPlayWorld (play_cast_of plan) recent play world
        → HasPlayStreams (play_cast_of plan) (contents_of plan files samples) play world → IsWriter plan.parts place name → CameEmpty world place }
    ensures failed { (plan : PlanValue) (files : PlayFiles) (samples : List (List ℕ)) (recent : ℕ)
        (play : Play) (world after : World) (done : WorkDone) (place : ℕ) (name : List ℕ)
        → IsReady plan files → AreSamples plan files samples → IsPlayWorld (play_cast_of plan) recent play world → Finish world done after
        → AreFronts (play_cast_of plan).cast (contents_of plan files samples) after (streams_of plan samples) → IsWriter plan.parts place name
        → HasWrittenFront after place (sink_text plan samples place) }
    ensures failed_new { (plan : PlanValue) (files : PlayFiles) (samples : List (List ℕ)) (recent : ℕ)
        (play : Play) (world after : World) (done : WorkDone) (place : ℕ) (name : List ℕ)
        → IsReady plan files → AreSamples plan files samples → IsPlayWorld (play_cast_of plan) recent play world → Finish world done after
        → EachSink (play_cast_of plan).cast after (λ l a s. s.known ≡ Some []) → IsWriter plan.parts place name → CameEmpty after place }
    ensures sizes { (plan : PlanValue) (files : PlayFiles) (samples : List (List ℕ)) (place : ℕ) (name : List ℕ)
        → IsReady plan files → AreSamples plan files samples → IsWriter plan.parts place name
        → length (sink_text plan samples place) ≡ size_of (format_into plan.joints plan.flows place 0) (slice_index_or plan.frames place 0) }
{}
