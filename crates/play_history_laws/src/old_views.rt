//! The conductor of a play whose views of the components may be older than the world: what it answers can be done all the same. Stated on a
//! function that does nothing; plays by workers stand on it.

ghost use Rattle.std.specs.Prelude.{List, Option, length, ◌+◌, ◌≡◌, ◌≢◌, ℕ};
ghost use Rattle.omx_types.specs.declared.state.State.{State};
ghost use Rattle.il_machine.specs.declared.answer.Progress.{Progress};
ghost use Rattle.il_machine.specs.World.{World};
ghost use Rattle.conductor.specs.declared.phase.ChangeStep.{ChangeStep};
ghost use Rattle.conductor.specs.declared.phase.Phase.TheVariants.{Change, Failed, Over, Send};
ghost use Rattle.conductor.specs.Hearing.{ConductorValue, heard};
ghost use Rattle.conductor.specs.Phases.{Conducts};
ghost use Rattle.play_model.specs.Acts.{Act, CanAct, acted};
ghost use Rattle.play_model.specs.Play.{Play};
ghost use Rattle.play_model.specs.Reached.{IsOver};
ghost use Rattle.play_world_laws.specs.Cast.{Cast};
ghost use Rattle.play_world_laws.specs.Standing.{target};
ghost use Rattle.play_world_laws.specs.PlayWorlds.{IsPlayWorld, PlayCast};
ghost use Rattle.play_turn_laws.specs.Conducting.{IsChangeOf, IsPlayConductor, step_to};
ghost use Rattle.play_history_laws.specs.Following.{IsLater, IsLeft};
ghost use Rattle.play_history_laws.specs.Behind.{AreOldViews, IsOld};

/// Where it knows no more than is so, it sends the next state and goes on with a change where the model may, says that all is over where it
/// is, and doesn't fail. So it stays while the play goes on, once a step that it answered is carried out, and while it hears views that were
/// so once. One that has heard all is such a one.
pub fn law_of_old_views()
    ensures hears { (cast : PlayCast) (recent : ℕ) (play : Play) (world : World) → IsPlayWorld cast recent play world
        → (value : ConductorValue) (views : List (Option Progress)) → length views ≡ length value.told → AreOldViews cast.cast play views
        → IsOld cast.cast recent play value → IsOld cast.cast recent play (heard value views) }
    ensures sends { (cast : PlayCast) (recent : ℕ) (play : Play) (world : World) → IsPlayWorld cast recent play world
        → (value : ConductorValue) → IsOld cast.cast recent play value → (next : ConductorValue) (state : State) → Conducts value (Send state) next
        → CanAct (cast.cast).layout play Act.Begin × (state ≡ target (play.phase + 1))
        × IsOld cast.cast recent (acted (cast.cast).layout Act.Begin play) next }
    ensures changes { (cast : PlayCast) (recent : ℕ) (play : Play) (world : World) → IsPlayWorld cast recent play world
        → (value : ConductorValue) → IsOld cast.cast recent play value → (next : ConductorValue) (component : ℕ) (step : ChangeStep)
        → Conducts value (Change component step) next → (link : ℕ) × IsChangeOf cast.cast play component step next link }
    ensures over { (cast : PlayCast) (recent : ℕ) (play : Play) (world : World) → IsPlayWorld cast recent play world
        → (value : ConductorValue) → IsOld cast.cast recent play value → (next : ConductorValue) → Conducts value Over next
        → IsOver (cast.cast).layout play × (next ≡ value) }
    ensures whole { (cast : PlayCast) (recent : ℕ) (play : Play) (world : World) → IsPlayWorld cast recent play world
        → (value : ConductorValue) → IsOld cast.cast recent play value → (next : ConductorValue) → Conducts value Failed next → ⊥ }
    ensures stays { (cast : Cast) (recent : ℕ) (before after : Play) (value : ConductorValue)
        → IsLater before after → ((link : ℕ) → IsLeft (before.change link) (after.change link))
        → IsOld cast recent before value → IsOld cast recent after value }
    ensures changed { (cast : Cast) (recent : ℕ) (before after : Play) (value next : ConductorValue) (component : ℕ) (step : ChangeStep) (link : ℕ)
        → IsOld cast recent before value → Conducts value (Change component step) next → IsChangeOf cast before component step next link
        → IsLater before after → ((other : ℕ) → other ≢ link → IsLeft (before.change other) (after.change other))
        → (after.change link).step ≡ step_to step → IsOld cast link after next }
    ensures views { (cast : Cast) (before after : Play) (views : List (Option Progress))
        → IsLater before after → AreOldViews cast before views → AreOldViews cast after views }
    ensures exact { (cast : Cast) (recent : ℕ) (play : Play) (value : ConductorValue)
        → IsPlayConductor cast recent play value → IsOld cast recent play value }
{}
