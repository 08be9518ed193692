//! The conductor of a play in the model's phases, and in those of its links' changes. Stated on functions that do
//! nothing.

ghost use Rattle.std.specs.Prelude.{◌≡◌, ℕ, ◌+◌, Bool, List, slice_get, Option, Some};
ghost use Rattle.omx_types.specs.declared.state.State.{State};
ghost use Rattle.il_machine.specs.declared.answer.Progress.{Progress};
ghost use Rattle.il_machine.specs.World.{World};
ghost use Rattle.conductor.specs.declared.phase.ChangeStep.{ChangeStep};
ghost use Rattle.conductor.specs.declared.phase.LateLink.{LateLink};
ghost use Rattle.conductor.specs.declared.phase.Phase.TheVariants.{Change, Failed, Over, Send, Wait};
ghost use Rattle.conductor.specs.Casting as conductors;
ghost use Rattle.conductor.specs.Hearing.{ConductorValue, heard};
ghost use Rattle.conductor.specs.Phases.{Conducts};
ghost use Rattle.play_forms.specs.Plans.{IsValid, PlanValue};
ghost use Rattle.play_model.specs.Numbers.{unbegun, not_announced};
ghost use Rattle.play_model.specs.Play.{Layout, Play};
ghost use Rattle.play_model.specs.Reached.{IsOver};
ghost use Rattle.play_model.specs.Acts.{Act, CanAct, CanActs, acted, all_acted};
ghost use Rattle.play_world_laws.specs.Cast.{Cast, giver_of, script_place};
ghost use Rattle.play_world_laws.specs.Standing.{target};
ghost use Rattle.play_plan_laws.specs.Casting.{cast_of};
ghost use Rattle.play_plan_laws.specs.Conducting.{HasViews};
ghost use Rattle.play_world_laws.specs.PlayWorlds.{IsPlayWorld, PlayCast};
ghost use Rattle.play_turn_laws.specs.Conducting.{AreCarriedOut, AreLates, AreOnLink, HasGoneOn, IsChangeOf, IsFirstTold, IsPlayConducting, IsPlayConductor, IsLateOf, IsOwnAct, IsUnderWay, step_from};

/// A conductor that has heard what the components told sends the next state exactly where the model begins one, goes on with the change
/// of a link exactly where the model can, of several that aren't begun with the first, and says that all is over exactly where it is. It
/// never fails.
pub fn law_of_play_conductors()
    ensures hears { (cast : PlayCast) (recent : ℕ) (play : Play) (world : World) (value : ConductorValue) (views : List (Option Progress))
        → IsPlayWorld cast recent play world → IsPlayConducting cast.cast recent play value → AreCarriedOut cast.cast play value.lates → HasViews cast.cast world value views
        → IsPlayConductor cast.cast recent play (heard value views) }
    ensures sends { (cast : PlayCast) (recent : ℕ) (play : Play) (world : World) (value next : ConductorValue) (state : State)
        → IsPlayWorld cast recent play world → IsPlayConductor cast.cast recent play value → Conducts value (Send state) next
        → CanAct (cast.cast).layout play Act.Begin × (state ≡ target (play.phase + 1)) × IsPlayConducting cast.cast recent (acted (cast.cast).layout Act.Begin play) next }
    ensures begins { (cast : PlayCast) (recent : ℕ) (play : Play) (world : World) (value : ConductorValue)
        → IsPlayWorld cast recent play world → IsPlayConductor cast.cast recent play value → CanAct (cast.cast).layout play Act.Begin
        → Conducts value (Send (target (play.phase + 1))) (record value { sends = value.sends + 1 }) }
    ensures changes { (cast : PlayCast) (recent : ℕ) (play : Play) (world : World) (value next : ConductorValue) (component : ℕ) (step : ChangeStep)
        → IsPlayWorld cast recent play world → IsPlayConductor cast.cast recent play value → Conducts value (Change component step) next
        → (link : ℕ) × IsChangeOf cast.cast play component step next link × IsFirstTold cast.cast play link }
    // Where the model can go on with a link, that one is answered, or, where its change isn't begun, the first that has told.
    ensures goes_on { (cast : PlayCast) (recent : ℕ) (play : Play) (world : World) (value : ConductorValue) (link : ℕ)
        → IsPlayWorld cast recent play world → IsPlayConductor cast.cast recent play value → CanAct (cast.cast).layout play (Act.Conduct link)
        → (other : ℕ) × (IsFirstTold cast.cast play link → other ≡ link)
        × (step : ChangeStep) × (next : ConductorValue) × ((play.change other).step ≡ step_from step)
        × Conducts value (Change (script_place cast.cast (giver_of cast.cast other)) step) next }
    ensures over { (cast : PlayCast) (recent : ℕ) (play : Play) (world : World) (value next : ConductorValue)
        → IsPlayWorld cast recent play world → IsPlayConductor cast.cast recent play value → Conducts value Over next → IsOver (cast.cast).layout play × (next ≡ value) }
    ensures ends { (cast : PlayCast) (recent : ℕ) (play : Play) (world : World) (value : ConductorValue)
        → IsPlayWorld cast recent play world → IsPlayConductor cast.cast recent play value → IsOver (cast.cast).layout play → Conducts value Over value }
    ensures waits { (cast : PlayCast) (recent : ℕ) (play : Play) (world : World) (value next : ConductorValue)
        → IsPlayWorld cast recent play world → IsPlayConductor cast.cast recent play value → Conducts value Wait next
        → (CanAct (cast.cast).layout play Act.Begin → ⊥) × ((link : ℕ) → CanAct (cast.cast).layout play (Act.Conduct link) → ⊥) × (IsOver (cast.cast).layout play → ⊥) × (next ≡ value) }
    ensures whole { (cast : PlayCast) (recent : ℕ) (play : Play) (world : World) (value next : ConductorValue)
        → IsPlayWorld cast recent play world → IsPlayConductor cast.cast recent play value → Conducts value Failed next → ⊥ }
{}

/// What a conductor knows stays so by the acts of the play, its own on a link while a step of it is being carried out.
pub fn law_of_play_knowledge()
    ensures kept { (cast : Cast) (recent : ℕ) (play : Play) (act : Act) (lates : List LateLink)
        → CanAct cast.layout play act → IsOwnAct act → AreLates cast recent play lates → AreLates cast recent (acted cast.layout act play) lates }
    ensures carried { (cast : Cast) (play : Play) (act : Act) (lates : List LateLink)
        → CanAct cast.layout play act → IsOwnAct act → AreCarriedOut cast play lates → AreCarriedOut cast (acted cast.layout act play) lates }
    ensures conducted { (cast : Cast) (play : Play) (link index : ℕ) (late : LateLink) (lates : List LateLink)
        → AreLates cast link play lates → slice_get lates index ≡ Some late → IsLateOf cast link late
        → IsUnderWay late.steps ((play.change link).step + 1) → AreLates cast link (acted cast.layout (Act.Conduct link) play) lates }
    ensures on_link { (cast : Cast) (play : Play) (link index number : ℕ) (late : LateLink) (lates : List LateLink) (acts : List Act)
        → CanActs cast.layout play acts → AreOnLink link acts number → AreLates cast link play lates → slice_get lates index ≡ Some late → IsLateOf cast link late
        → IsUnderWay late.steps ((play.change link).step + number)
        → AreLates cast link (all_acted cast.layout acts play) lates }
    ensures gone { (layout : Layout) (play : Play) (link number : ℕ) (acts : List Act) → AreOnLink link acts number → HasGoneOn link play (all_acted layout acts play) number }
{}

/// Before its play the conductor of a valid plan knows its sinks and each late source's link, and that nothing was begun or changed.
pub fn law_of_play_castings()
    ensures begins { (plan : PlanValue) (by_output : ℕ → Bool) (recent : ℕ) (play : Play) → IsValid plan → play.phase ≡ unbegun → ((link : ℕ) → (play.change link).step ≡ not_announced)
        → IsPlayConducting (cast_of by_output plan) recent play (conductors.cast_of plan)
        × AreCarriedOut (cast_of by_output plan) play (conductors.cast_of plan).lates }
{}
