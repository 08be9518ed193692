//! The histories of the play of a plan: where they begin, once its graph is assembled, and what the files of its sinks have taken in each
//! world to which they lead. Stated on functions that do nothing.

ghost use Rattle.std.specs.Prelude.{List, Some, flat_map, is_some, length, slice_get, true, ◌<◌, ◌≡◌, ◌≤◌, ◌⊎◌, ℕ};
ghost use Rattle.omx_types.specs.declared.command.Completion.{Completion};
ghost use Rattle.omx_types.specs.declared.handle.Handle.{Handle};
ghost use Rattle.omx_types.specs.declared.state.State.{State};
ghost use Rattle.il_machine.specs.Acts.{Act, Reply};
ghost use Rattle.il_machine.specs.World.{Stream, World};
ghost use Rattle.play_build_laws.specs.Stages.{IsStage, Joining};
ghost use Rattle.play_forms.specs.Plain.{sink_text};
ghost use Rattle.play_forms.specs.Plans.{PlanValue};
ghost use Rattle.play_model.specs.Play.{Play};
ghost use Rattle.play_world_laws.specs.Cast.{giver_of};
ghost use Rattle.play_world_laws.specs.Openings.{opening};
ghost use Rattle.play_plan_laws.specs.Assemblies.{IsReady, PlayFiles, assembly_of, play_cast_of};
ghost use Rattle.play_result_laws.specs.Asked.{AreAllAt, AreBothDone, BackToIdle, Disabling, HasCause, acts_of, change_of, is_unasked, tuned};
ghost use Rattle.play_result_laws.specs.Files.{AreSamples, IsWriter};
ghost use Rattle.play_result_laws.specs.Worlds.{HasWritten, IsOpening};
ghost use Rattle.play_stream_laws.specs.PlayStreams.{HasPlayStreams};
ghost use Rattle.play_result_laws.specs.Contents.{contents_of, streams_of};
ghost use Rattle.play_result_laws.specs.Texts.{HasWrittenFront};
ghost use Rattle.read_world_laws.specs.Beside.{IsDeclined};
ghost use Rattle.read_world_laws.specs.Inside.{inside};
ghost use Rattle.play_history_laws.specs.Following.{IsTaken};
ghost use Rattle.play_history_laws.specs.Histories.{IsUnasked};
ghost use Rattle.play_history_laws.specs.Order.{BothHaveTold, Cursor, EachHasHeard, HasHeardOf, IsChangeAct, IsSending, nothing_asked};
ghost use Rattle.play_history_laws.specs.Faults.{HasFaultStreams, IsFailedStep, IsFaulty, NoneFailed};
ghost use Rattle.play_history_laws.specs.Askings.{IsPlanHistory, asking_of, read_of};

/// The graph of a plan that is ready, once it is assembled, is a world in which nothing of its play was asked and no step has failed. Nothing
/// flowed yet.
pub fn law_of_plan_beginnings()
    ensures taken { (plan : PlanValue) (files : PlayFiles) (handles : List Handle) (world : World)
        → IsStage (assembly_of plan files) (Joining (length plan.joints)) handles world → (recent : ℕ) → IsReady plan files
        → IsTaken (play_cast_of plan) (nothing_asked (play_cast_of plan).cast) recent opening world }
    ensures faulty { (plan : PlanValue) (files : PlayFiles) (handles : List Handle) (world : World)
        → IsStage (assembly_of plan files) (Joining (length plan.joints)) handles world → (recent : ℕ) → IsReady plan files
        → IsFaulty (play_cast_of plan) (nothing_asked (play_cast_of plan).cast) recent opening world.streams world }
    ensures flows { (plan : PlanValue) (files : PlayFiles) (samples : List (List ℕ)) (world : World)
        → IsReady plan files → AreSamples plan files samples → IsOpening plan files world
        → HasFaultStreams (play_cast_of plan) (contents_of plan files samples) (streams_of plan samples) opening world.streams world }
{}

/// From the second Idle on the file of each sink has taken its text of the plain function; at each moment before a front of it.
pub fn law_of_plan_files()
    ensures whole { (plan : PlanValue) (files : PlayFiles) (samples : List (List ℕ)) → IsReady plan files → AreSamples plan files samples
        → (cursor : Cursor) (recent : ℕ) (play : Play) (world : World) → IsTaken (play_cast_of plan) cursor recent play world
        → HasPlayStreams (play_cast_of plan) (contents_of plan files samples) play (inside world) → 3 ≤ cursor.phase
        → (place : ℕ) (name : List ℕ) → IsWriter plan.parts place name → HasWritten world place (sink_text plan samples place) }
    ensures fronts { (plan : PlanValue) (files : PlayFiles) (samples : List (List ℕ)) → IsReady plan files → AreSamples plan files samples
        → (cursor : Cursor) (recent : ℕ) (play : Play) (world : World) → IsTaken (play_cast_of plan) cursor recent play world
        → HasPlayStreams (play_cast_of plan) (contents_of plan files samples) play (inside world)
        → (place : ℕ) (name : List ℕ) → IsWriter plan.parts place name → HasWrittenFront world place (sink_text plan samples place) }
{}

/// So it is where steps may have failed.
pub fn law_of_faulty_files()
    ensures whole { (plan : PlanValue) (files : PlayFiles) (samples : List (List ℕ)) → IsReady plan files → AreSamples plan files samples
        → (cursor : Cursor) (recent : ℕ) (play : Play) (streams : List Stream) (world : World)
        → IsFaulty (play_cast_of plan) cursor recent play streams world
        → HasFaultStreams (play_cast_of plan) (contents_of plan files samples) (streams_of plan samples) play streams world
        → 3 ≤ cursor.phase → NoneFailed world
        → (place : ℕ) (name : List ℕ) → IsWriter plan.parts place name → HasWritten world place (sink_text plan samples place) }
    ensures fronts { (plan : PlanValue) (files : PlayFiles) (samples : List (List ℕ)) → IsReady plan files → AreSamples plan files samples
        → (cursor : Cursor) (recent : ℕ) (play : Play) (streams : List Stream) (world : World)
        → IsFaulty (play_cast_of plan) cursor recent play streams world
        → HasFaultStreams (play_cast_of plan) (contents_of plan files samples) (streams_of plan samples) play streams world
        → (place : ℕ) (name : List ℕ) → IsWriter plan.parts place name → HasWrittenFront world place (sink_text plan samples place) }
{}

/// What the steps of a plan's history have told of its components is what the cursor of a history reads of the world to which they lead, and
/// what a client of the plan asks next are the acts of that cursor, by the handles of the opening. So it is where steps may have failed.
pub fn law_of_plan_askings()
    ensures unasked { (act : Act) (reply : Reply) → is_unasked act reply ≡ true → IsUnasked act ⊎ IsFailedStep act }
    ensures states { (plan : PlanValue) (files : PlayFiles) (handles : List Handle) (world : World) (steps : List (Act × Reply)) (cursor : Cursor) (after : World)
        → IsPlanHistory plan files handles world steps cursor after
        → (state : State) → AreAllAt (tuned plan files) state steps
        → EachHasHeard (play_cast_of plan).cast (read_of after) (λ number progress. progress.state ≡ Some state) }
    ensures ports { (plan : PlanValue) (files : PlayFiles) (handles : List Handle) (world : World) (steps : List (Act × Reply)) (cursor : Cursor) (after : World)
        → IsPlanHistory plan files handles world steps cursor after
        → (completion : ℕ → Completion) (link : ℕ) → link < length plan.joints → AreBothDone (tuned plan files) completion link steps
        → BothHaveTold (play_cast_of plan).cast (read_of after) completion link }
    ensures settings { (plan : PlanValue) (files : PlayFiles) (handles : List Handle) (world : World) (steps : List (Act × Reply)) (cursor : Cursor) (after : World)
        → IsPlanHistory plan files handles world steps cursor after
        → (link : ℕ) → link < length plan.joints → HasCause (tuned plan files) (Disabling link) steps
        → HasHeardOf (play_cast_of plan).cast (read_of after) (giver_of (play_cast_of plan).cast link) (λ progress. is_some progress.settings ≡ true) }
    ensures ends { (plan : PlanValue) (files : PlayFiles) (handles : List Handle) (world : World) (steps : List (Act × Reply)) (cursor : Cursor) (after : World)
        → IsPlanHistory plan files handles world steps cursor after
        → HasCause (tuned plan files) BackToIdle steps
        → EachHasHeard (play_cast_of plan).cast (read_of after) (λ number progress. (((play_cast_of plan).cast).layout).is_sink number ≡ true → progress.eos ≡ true) }
    ensures sends { (plan : PlanValue) (files : PlayFiles) (handles : List Handle) (world : World) (steps : List (Act × Reply)) (cursor : Cursor) (after : World)
        → IsPlanHistory plan files handles world steps cursor after
        → (phase place : ℕ) (step : Act × Reply) → 1 ≤ phase → phase ≤ 4 → slice_get (acts_of (tuned plan files) handles (asking_of phase)) place ≡ Some step
        → IsSending (play_cast_of plan).cast (read_of after) phase place step.0 × (IsDeclined step.1 → ⊥) }
    ensures changes { (plan : PlanValue) (files : PlayFiles) (handles : List Handle) (world : World) (steps : List (Act × Reply)) (cursor : Cursor) (after : World)
        → IsPlanHistory plan files handles world steps cursor after
        → (link number : ℕ) (step : Act × Reply) → link < length plan.joints → slice_get (flat_map (acts_of (tuned plan files) handles) (change_of link)) number ≡ Some step
        → IsChangeAct (play_cast_of plan) (read_of after) link number step.0 × (IsDeclined step.1 → ⊥) }
{}
