//! The turns of a component and of a link in a play: what each call comes to, accepted or not, and an accepted act
//! with its whole close-out. Stated on functions that do nothing.

ghost use Rattle.std.specs.Prelude.{List, None, Ok, Option, Result, Some, ◌+◌, false, slice_get, true, ◌<◌, ◌≡◌, ℕ};
ghost use Rattle.omx_types.specs.declared.error.CallError.{CallError};
ghost use Rattle.omx_types.specs.declared.error.OmxError.{OmxError};
ghost use Rattle.omx_types.specs.declared.handle.Handle.{Handle};
ghost use Rattle.omx_types.specs.declared.state.State.{State};
ghost use Rattle.il_machine.specs.declared.answer.Acted.{Acted};
ghost use Rattle.il_machine.specs.Claims.{Claim, Claimed, ClaimedWork, WorkSeen};
ghost use Rattle.il_machine.specs.Commands.{RunCommand};
ghost use Rattle.il_machine.specs.Finishing.{Finish};
ghost use Rattle.il_machine.specs.Flow.{HandBack, HandOver, Release, Supply};
ghost use Rattle.il_machine.specs.Lists.{is_empty};
ghost use Rattle.il_machine.specs.Notes.{EndNote};
ghost use Rattle.il_machine.specs.Stepping.{IsDoneOf, WorkDone};
ghost use Rattle.il_machine.specs.World.{Component, Work, World};
ghost use Rattle.il_machine.specs.declared.answer.Progress.{Progress};
ghost use Rattle.conductor.specs.declared.phase.ChangeStep.{ChangeStep};
ghost use Rattle.conductor.specs.declared.phase.LateLink.{LateLink};
ghost use Rattle.conductor.specs.declared.phase.Phase.TheVariants.{Send, Wait};
ghost use Rattle.conductor.specs.Hearing.{ConductorValue, heard};
ghost use Rattle.conductor.specs.Phases.{Conducts};
ghost use Rattle.play_model.specs.Acts.{Act, CanAct, acted};
ghost use Rattle.play_model.specs.Play.{Play, other_component, supplier};
ghost use Rattle.play_loop.specs.Turns.{CanNone, IsSend};
ghost use Rattle.play_world_laws.specs.Standing.{target};
ghost use Rattle.play_world_laws.specs.Cast.{away_at, components_of, home_at, links_of, script_place};
ghost use Rattle.play_world_laws.specs.Worlds.{Names};
ghost use Rattle.play_plan_laws.specs.Conducting.{HasViews};
ghost use Rattle.play_world_laws.specs.PlayWorlds.{IsPlayWorld, PlayCast};
ghost use Rattle.play_world_laws.specs.Leading.{PlayLeadsTo};
ghost use Rattle.play_world_laws.specs.Waiting.{IsWaiting};
ghost use Rattle.play_world_laws.specs.Tellings.{IsTellingOf};
ghost use Rattle.play_turn_laws.specs.Conducting.{AreCarriedOut, HasGoneOn, IsChangeOf, IsPlayConducting, IsPlayConductor, IsLateOf, IsOwnAct, IsUnderWay, step_from, step_to};
ghost use Rattle.play_turn_laws.specs.Playing.{AreSent, IsBetweenTurns, IsPlayConducted};
ghost use Rattle.play_turn_laws.specs.Turns.{IsAct, IsBackOf, IsPlayChange, IsPlayTurn, IsRunOf, IsStepOf, PlayCame, is_did};

/// An accepted act that the conductor doesn't order leads with what happens after it to a world of the play in which nothing is due.
pub fn law_of_play_turns()
    ensures goes { (cast : PlayCast) (recent : ℕ) (play : Play) (act : Act) (world after : World)
        → IsPlayWorld cast recent play world → IsWaiting (cast.cast).layout play → IsOwnAct act → CanAct (cast.cast).layout play act
        → PlayLeadsTo cast recent (acted (cast.cast).layout act play) after → (next : Play) × IsPlayTurn cast recent play next after }
{}

/// So does an act of the conductor on a link that is being changed.
pub fn law_of_conducted_turns()
    ensures goes { (cast : PlayCast) (recent : ℕ) (play : Play) (link : ℕ) (world after : World)
        → IsPlayWorld cast recent play world → IsWaiting (cast.cast).layout play → CanAct (cast.cast).layout play (Act.Conduct link)
        → PlayLeadsTo cast link (acted (cast.cast).layout (Act.Conduct link) play) after → (next : Play) × IsPlayChange cast link play next after }
{}

/// A component runs its command, tells a note and does a step exactly where the model can, and its client object comes back, and its
/// work, as an act of it.
pub fn law_of_component_turns()
    ensures runs { (cast : PlayCast) (recent : ℕ) (play : Play) (world : World) (place : ℕ) (handle : Handle) (result : Result Acted OmxError) (after : World)
        → IsPlayWorld cast recent play world → place < components_of cast.cast → Names cast.cast world place handle → RunCommand world handle result after
        → PlayCame cast recent play after (is_did result) (IsRunOf (cast.cast).layout place) }
    ensures tells { (cast : PlayCast) (recent : ℕ) (play : Play) (world : World) (place : ℕ) (handle : Handle) (after : World) (component : Component)
        → IsPlayWorld cast recent play world → place < components_of cast.cast → Names cast.cast world place handle → slice_get world.components (script_place cast.cast place) ≡ Some component
        → component.client_out ≡ true → EndNote world handle after → PlayCame cast recent play after true (IsTellingOf (cast.cast).layout place) }
    ensures untold { (cast : PlayCast) (recent : ℕ) (play : Play) (world : World) (place : ℕ) (component : Component)
        → IsPlayWorld cast recent play world → slice_get world.components (script_place cast.cast place) ≡ Some component
        → component.client_out ≡ false → is_empty component.notes ≡ true → CanNone (cast.cast).layout play (IsTellingOf (cast.cast).layout place) }
    ensures claims { (cast : PlayCast) (recent : ℕ) (play : Play) (world : World) (place : ℕ) (handle : Handle) (result : Result Claimed OmxError) (after : World) (component : Component)
        → IsPlayWorld cast recent play world → place < components_of cast.cast → Names cast.cast world place handle → slice_get world.components (script_place cast.cast place) ≡ Some component
        → component.work ≡ None → Claim world handle result after
        → ((work : WorkSeen) → result ≡ Ok (ClaimedWork work) → ⊥) → CanNone (cast.cast).layout play (IsStepOf (cast.cast).layout place) }
    ensures finishes { (cast : PlayCast) (recent : ℕ) (play : Play) (world : World) (place : ℕ) (component : Component) (work : Work) (done : WorkDone) (after : World)
        → IsPlayWorld cast recent play world → place < components_of cast.cast → slice_get world.components (script_place cast.cast place) ≡ Some component → component.work ≡ Some work
        → done.component ≡ script_place cast.cast place → IsDoneOf world component work done → done.fault ≡ None → Finish world done after
        → PlayCame cast recent play after true (IsStepOf (cast.cast).layout place) }
{}

/// A link's ends make, unmake and pass its headers on exactly where the model can.
pub fn law_of_link_turns()
    ensures supplies { (cast : PlayCast) (recent : ℕ) (play : Play) (world : World) (link : ℕ) (handle : Handle) (result : Result Acted CallError) (after : World)
        → IsPlayWorld cast recent play world → link < links_of cast.cast → Names cast.cast world (supplier (cast.cast).layout link) handle → Supply world handle (home_at cast.cast link).port result after
        → PlayCame cast recent play after (is_did result) (IsAct (Act.Supply link)) }
    ensures releases { (cast : PlayCast) (recent : ℕ) (play : Play) (world : World) (link : ℕ) (handle : Handle) (result : Result Acted OmxError) (after : World)
        → IsPlayWorld cast recent play world → link < links_of cast.cast → Names cast.cast world (supplier (cast.cast).layout link) handle → Release world handle (home_at cast.cast link).port result after
        → PlayCame cast recent play after (is_did result) (IsAct (Act.Release link)) }
    ensures overs { (cast : PlayCast) (recent : ℕ) (play : Play) (world : World) (link : ℕ) (handle : Handle) (result : Result Acted OmxError) (after : World)
        → IsPlayWorld cast recent play world → link < links_of cast.cast → Names cast.cast world (supplier (cast.cast).layout link) handle → HandOver world handle (home_at cast.cast link).port result after
        → PlayCame cast recent play after (is_did result) (IsAct (Act.HandOver link)) }
    ensures backs { (cast : PlayCast) (recent : ℕ) (play : Play) (world : World) (link : ℕ) (handle : Handle) (result : Result Acted OmxError) (after : World)
        → IsPlayWorld cast recent play world → link < links_of cast.cast → Names cast.cast world (other_component (cast.cast).layout link) handle → HandBack world handle (away_at cast.cast link).port result after
        → PlayCame cast recent play after (is_did result) (IsBackOf link) }
{}

/// Between two turns of a play the conductor hears what was told. Where it waits the model can do nothing of its; the state that it sends
/// is begun; and each turn leads from a play to a play.
pub fn law_of_conducted_plays()
    ensures hears { (cast : PlayCast) (recent : ℕ) (play : Play) (world : World) (value : ConductorValue) (views : List (Option Progress))
        → IsBetweenTurns cast recent play world value → HasViews cast.cast world value views
        → IsPlayConductor cast.cast recent play (heard value views) × IsBetweenTurns cast recent play world (heard value views) }
    ensures waits { (cast : PlayCast) (recent : ℕ) (play : Play) (world : World) (value next : ConductorValue)
        → IsBetweenTurns cast recent play world value → IsPlayConductor cast.cast recent play value → Conducts value Wait next
        → CanNone (cast.cast).layout play IsSend × (next ≡ value) }
    ensures begins { (cast : PlayCast) (recent : ℕ) (play : Play) (world : World) (value next : ConductorValue) (state : State)
        → IsBetweenTurns cast recent play world value → IsPlayConductor cast.cast recent play value → Conducts value (Send state) next
        → CanAct (cast.cast).layout play Act.Begin × (state ≡ target (play.phase + 1)) × IsPlayConducted cast recent (acted (cast.cast).layout Act.Begin play) world next
        × AreCarriedOut cast.cast (acted (cast.cast).layout Act.Begin play) next.lates }
    ensures stands { (cast : PlayCast) (recent : ℕ) (play next : Play) (world after : World) (value : ConductorValue)
        → IsPlayConducted cast recent play world value → IsPlayTurn cast recent play next after → IsPlayConducted cast recent next after value }
    ensures plays { (cast : PlayCast) (recent : ℕ) (play next : Play) (world after : World) (value : ConductorValue)
        → IsBetweenTurns cast recent play world value → IsPlayTurn cast recent play next after → IsBetweenTurns cast recent next after value }
    ensures changes { (cast : PlayCast) (play next : Play) (link index : ℕ) (late : LateLink) (world : World) (value : ConductorValue)
        → IsPlayConducting cast.cast link play value → IsPlayChange cast link play next world → slice_get value.lates index ≡ Some late → IsLateOf cast.cast link late
        → IsUnderWay late.steps ((play.change link).step + 1) → IsPlayConducted cast link next world value }
    ensures changed { (cast : PlayCast) (play next : Play) (link component number : ℕ) (step : ChangeStep) (world : World) (value : ConductorValue)
        → IsChangeOf cast.cast play component step value link → HasGoneOn link play next number → step_from step + number ≡ step_to step
        → IsPlayConducted cast link next world value → AreSent (cast.cast).layout next → IsBetweenTurns cast link next world value }
{}
