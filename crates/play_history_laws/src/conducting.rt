//! The conductor of a play among those who work: by its own acts alone it is known that all that is asked is asked in order and in time,
//! that it is accepted, and when the play is over. Stated on functions that do nothing; plays by workers stand on them.
ghost use Rattle.std.specs.Prelude.{Bool, List, None, Ok, Some, length, true, ◌<◌, ◌≡◌, ◌≤◌, ℕ};
ghost use Rattle.omx_types.specs.declared.handle.Handle.{Handle};
ghost use Rattle.omx_types.specs.declared.state.State.TheVariants.{Loaded};
ghost use Rattle.il_machine.specs.declared.answer.Progress.{Progress};
ghost use Rattle.il_machine.specs.Acts.{Act, Reply};
ghost use Rattle.il_machine.specs.Components.{progress_answer};
ghost use Rattle.il_machine.specs.Run.{Run};
ghost use Rattle.il_machine.specs.World.{Stream, World};
ghost use Rattle.conductor.specs.declared.phase.Phase.TheVariants.{Over};
ghost use Rattle.conductor.specs.Hearing.{ConductorValue};
ghost use Rattle.conductor.specs.Phases.{Conducts};
ghost use Rattle.play_build_laws.specs.Stages.{IsStage, Joining};
ghost use Rattle.play_forms.specs.Plans.{PlanValue};
ghost use Rattle.play_log.specs.Entries.{Entry, steps_of};
ghost use Rattle.play_model.specs.Play.{Play};
ghost use Rattle.play_world_laws.specs.Cast.{components_of, links_of};
ghost use Rattle.play_world_laws.specs.Changing.{is_joined_at};
ghost use Rattle.play_world_laws.specs.PlayWorlds.{PlayCast};
ghost use Rattle.play_world_laws.specs.Worlds.{Names};
ghost use Rattle.play_plan_laws.specs.Assemblies.{IsReady, PlayFiles, assembly_of, play_cast_of};
ghost use Rattle.play_result_laws.specs.Asked.{AreAllAt, tuned};
ghost use Rattle.play_history_laws.specs.Order.{Cursor};
ghost use Rattle.play_history_laws.specs.Faults.{IsFaulty};
ghost use Rattle.play_history_laws.specs.Behind.{IsBehind};
ghost use Rattle.play_history_laws.specs.Askings.{IsPlanHistory};
ghost use Rattle.play_result_laws.specs.Passes.{own_steps};
ghost use Rattle.play_history_laws.specs.Passes.{RequestAlone};
ghost use Rattle.play_result_laws.specs.Rounds.{IsConducting, IsHalted, IsRefused};

/// What a look at a component shows is behind the play: no more than it has told so far.
pub fn law_of_looks()
    ensures looks { (cast : PlayCast) (cursor : Cursor) (recent : ℕ) (play : Play) (streams : List Stream) (world : World)
        → IsFaulty cast cursor recent play streams world → (component : ℕ) (handle : Handle) (progress : Progress)
        → component < components_of cast.cast → Names cast.cast world component handle → progress_answer handle world ≡ Ok (Some progress)
        → progress.error ≡ None → IsBehind cast.cast play component progress }
{}

/// Where one conducts a plan's play among others that request nothing, what it asks is a history of the play, with as many StateSets begun as it
/// has sent, each sent to all; and all its requests are accepted. Where it says that all is over, each component has told Loaded. Between two
/// phases each link has its tunnel.
pub fn law_of_conductors()
    ensures requests { (plan : PlanValue) (files : PlayFiles) (handles : List Handle) (world : World)
        → IsReady plan files → IsStage (assembly_of plan files) (Joining (length plan.joints)) handles world
        → (own : ℕ → Bool) (entries : List Entry) (after : World) → RequestAlone own entries → Run world (steps_of entries) after
        → (value : ConductorValue) → IsConducting plan files handles (own_steps own entries) value
        → (cursor : Cursor) × IsPlanHistory plan files handles world (steps_of entries) cursor after
        × (1 ≤ length plan.parts → cursor.phase ≡ value.sends) × (length plan.parts ≤ cursor.sent) }
    ensures accepted { (plan : PlanValue) (files : PlayFiles) (handles : List Handle) (world : World)
        → IsReady plan files → IsStage (assembly_of plan files) (Joining (length plan.joints)) handles world
        → (own : ℕ → Bool) (entries : List Entry) (after : World) → RequestAlone own entries → Run world (steps_of entries) after
        → IsRefused plan files handles (own_steps own entries) → ⊥ }
    ensures over { (plan : PlanValue) (files : PlayFiles) (handles : List Handle) (world : World)
        → IsReady plan files → IsStage (assembly_of plan files) (Joining (length plan.joints)) handles world
        → (own : ℕ → Bool) (entries : List Entry) (after : World) → RequestAlone own entries → Run world (steps_of entries) after
        → (value : ConductorValue) → IsConducting plan files handles (own_steps own entries) value
        → (next : ConductorValue) → Conducts value Over next → AreAllAt (tuned plan files) Loaded (steps_of entries) }
    ensures tunnels { (plan : PlanValue) (files : PlayFiles) (handles : List Handle) (world : World)
        → IsReady plan files → IsStage (assembly_of plan files) (Joining (length plan.joints)) handles world
        → (own : ℕ → Bool) (entries : List Entry) (after : World) → RequestAlone own entries → Run world (steps_of entries) after
        → (value : ConductorValue) → IsConducting plan files handles (own_steps own entries) value
        → (cursor : Cursor) × (recent : ℕ) × (now : Play) × (streams : List Stream) × IsFaulty (play_cast_of plan) cursor recent now streams after
        × ((link : ℕ) → link < links_of (play_cast_of plan).cast → (((play_cast_of plan).cast).layout).is_late link ≡ true
        → is_joined_at (now.change link).step ≡ true) }
{}

/// Where one conducts a plan's play among others that request nothing, none of its acts is refused: neither a request nor a look.
pub fn law_of_halts()
    ensures { (plan : PlanValue) (files : PlayFiles) (handles : List Handle) (world : World)
        → IsReady plan files → IsStage (assembly_of plan files) (Joining (length plan.joints)) handles world
        → (own : ℕ → Bool) (entries : List Entry) (after : World) → RequestAlone own entries → Run world (steps_of entries) after
        → IsHalted plan files handles (own_steps own entries) → ⊥ }
{}
