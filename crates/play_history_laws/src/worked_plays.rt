//! A play by several passes, one of which conducts while the others work: whatever their schedule, what they did is a history of the play, and
//! the whole play where the one who conducts says that all is over. Stated on functions that do nothing; the player by workers stands on them.

ghost use Rattle.std.specs.Prelude.{All, List, false, true, ◌<◌, ◌≡◌, ℕ};
ghost use Rattle.omx_types.specs.declared.handle.Handle.{Handle};
ghost use Rattle.il_machine.specs.Sound.{Sound};
ghost use Rattle.il_machine.specs.World.{Stream, World};
ghost use Rattle.conductor.specs.declared.phase.Phase.TheVariants.{Over};
ghost use Rattle.conductor.specs.Hearing.{ConductorValue};
ghost use Rattle.conductor.specs.Phases.{Conducts};
ghost use Rattle.play_forms.specs.Plain.{sink_text};
ghost use Rattle.play_forms.specs.Plans.{PlanValue};
ghost use Rattle.play_log.specs.Entries.{Entry, printed, steps_of};
ghost use Rattle.play_model.specs.Play.{Play};
ghost use Rattle.play_world_laws.specs.Cast.{links_of};
ghost use Rattle.play_world_laws.specs.Changing.{is_joined_at};
ghost use Rattle.play_world_laws.specs.PlayWorlds.{IsPlayWorld};
ghost use Rattle.play_plan_laws.specs.Assemblies.{PlayFiles, play_cast_of};
ghost use Rattle.play_plan_laws.specs.Endings.{IsPlayedOut};
ghost use Rattle.play_result_laws.specs.Asked.{IsConducted, tuned};
ghost use Rattle.play_result_laws.specs.Files.{AreSamples, IsWriter};
ghost use Rattle.play_result_laws.specs.Texts.{HasWrittenFront};
ghost use Rattle.play_result_laws.specs.Worlds.{HasWritten};
ghost use Rattle.read_world_laws.specs.Inside.{inside};
ghost use Rattle.read_world_laws.specs.Mended.{mend};
ghost use Rattle.play_history_laws.specs.Faults.{NoneFailed};
ghost use Rattle.play_result_laws.specs.Passes.{own_steps};
ghost use Rattle.play_history_laws.specs.Passes.{AreUnrefused};
ghost use Rattle.play_result_laws.specs.Rounds.{IsConducting, IsRefused};
ghost use Rattle.play_history_laws.specs.Worked.{IsByPass, IsWorked, conducts};

/// Where the one who conducts says that all is over and no client object is out, the play was done whole: no step has failed, each sink's file
/// has taken its text of the plain function, and what a log prints of the entries is all that a play asks, each in its time.
pub fn law_of_worked_plays()
    ensures over { (plan : PlanValue) (files : PlayFiles) (handles : List Handle) (world : World) (entries : List Entry) (after : World)
        → IsWorked plan files handles world entries after
        → (value : ConductorValue) → IsConducting plan files handles (own_steps conducts entries) value → (next : ConductorValue) → Conducts value Over next
        → All (λ component. component.client_out ≡ false) after.components → IsPlayedOut plan after }
    ensures conducted { (plan : PlanValue) (files : PlayFiles) (handles : List Handle) (world : World) (entries : List Entry) (after : World)
        → IsWorked plan files handles world entries after
        → (value : ConductorValue) → IsConducting plan files handles (own_steps conducts entries) value → (next : ConductorValue) → Conducts value Over next
        → IsConducted (tuned plan files) handles (steps_of (printed entries)) × NoneFailed after }
    ensures files { (plan : PlanValue) (files : PlayFiles) (handles : List Handle) (world : World) (entries : List Entry) (after : World)
        → IsWorked plan files handles world entries after
        → (value : ConductorValue) → IsConducting plan files handles (own_steps conducts entries) value → (next : ConductorValue) → Conducts value Over next
        → (samples : List (List ℕ)) → AreSamples plan files samples
        → (place : ℕ) (name : List ℕ) → IsWriter plan.parts place name → HasWritten after place (sink_text plan samples place) }
{}

/// Wherever they stop, nothing of what the others did was refused, nor anything that the one who conducts asked for; by the passes of the printed
/// entries it is known who asked and who worked. Each sink's file has taken a front of its text; and the graph stands, read without its
/// faults, in a world of the play in which each late source's link has its tunnel.
pub fn law_of_left_plays()
    ensures unrefused { (plan : PlanValue) (files : PlayFiles) (handles : List Handle) (world : World) (entries : List Entry) (after : World)
        → IsWorked plan files handles world entries after
        → (value : ConductorValue) → IsConducting plan files handles (own_steps conducts entries) value → AreUnrefused entries }
    ensures passes { (plan : PlanValue) (files : PlayFiles) (handles : List Handle) (world : World) (entries : List Entry) (after : World)
        → IsWorked plan files handles world entries after
        → (value : ConductorValue) → IsConducting plan files handles (own_steps conducts entries) value → All IsByPass (printed entries) }
    ensures accepted { (plan : PlanValue) (files : PlayFiles) (handles : List Handle) (world : World) (entries : List Entry) (after : World)
        → IsWorked plan files handles world entries after → IsRefused plan files handles (own_steps conducts entries) → ⊥ }
    ensures fronts { (plan : PlanValue) (files : PlayFiles) (handles : List Handle) (world : World) (entries : List Entry) (after : World)
        → IsWorked plan files handles world entries after
        → (value : ConductorValue) → IsConducting plan files handles (own_steps conducts entries) value
        → (samples : List (List ℕ)) → AreSamples plan files samples
        → (place : ℕ) (name : List ℕ) → IsWriter plan.parts place name → HasWrittenFront after place (sink_text plan samples place) }
    ensures stands { (plan : PlanValue) (files : PlayFiles) (handles : List Handle) (world : World) (entries : List Entry) (after : World)
        → IsWorked plan files handles world entries after
        → (value : ConductorValue) → IsConducting plan files handles (own_steps conducts entries) value
        → (recent : ℕ) × (now : Play) × (streams : List Stream) × Sound after × IsPlayWorld (play_cast_of plan) recent now (inside (mend streams after))
        × ((link : ℕ) → link < links_of (play_cast_of plan).cast → (((play_cast_of plan).cast).layout).is_late link ≡ true
        → is_joined_at (now.change link).step ≡ true) }
{}
