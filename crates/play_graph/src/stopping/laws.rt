//! When the graph of a play can be stopped.

ghost use Rattle.std.specs.Prelude.{List, length, ◌≤◌, ℕ};
ghost use Rattle.il_machine.specs.Finishing.{Finish};
ghost use Rattle.il_machine.specs.Sound.{Sound};
ghost use Rattle.il_machine.specs.Stepping.{WorkDone};
ghost use Rattle.il_machine.specs.World.{Stream, World};
ghost use Rattle.play_build_laws.specs.Dismantling.{AreLinks};
ghost use Rattle.play_forms.specs.Plans.{IsValid, PlanValue};
ghost use Rattle.play_model.specs.Play.{Play};
ghost use Rattle.play_world_laws.specs.PlayWorlds.{IsPlayWorld};
ghost use Rattle.play_plan_laws.specs.Assemblies.{play_cast_of};
ghost use Rattle.play_plan_laws.specs.Endings.{ends_of};
ghost use Rattle.read_world_laws.specs.Inside.{inside};
ghost use Rattle.read_world_laws.specs.Mended.{mend};
ghost use Rattle.play_graph.specs.Stops.{HaveTunnels, HasNoneOut, HasStopped};

/// A plan that has a world of its play has at most 1024 links. No two ends of them are one port, and no component gives to itself. Such a
/// world can be stopped if each late source's link has its tunnel and no work and no client object is out, and so can what a work that came
/// back left of it, whatever came of its step. So can one that is such a world as it is read without its faults, however many steps have failed.
pub fn law_of_stops()
    ensures few { (plan : PlanValue) (recent : ℕ) (play : Play) (world : World) → IsValid plan → IsPlayWorld (play_cast_of plan) recent play world → length plan.joints ≤ 1024 }
    ensures links { (plan : PlanValue) (recent : ℕ) (play : Play) (world : World) → IsValid plan → IsPlayWorld (play_cast_of plan) recent play world
        → AreLinks (ends_of plan) (length plan.joints) }
    ensures standing { (plan : PlanValue) (recent : ℕ) (play : Play) (world : World) → IsValid plan → IsPlayWorld (play_cast_of plan) recent play world
        → HaveTunnels (play_cast_of plan) play → HasNoneOut world → HasStopped plan 0 world }
    ensures finished { (plan : PlanValue) (recent : ℕ) (play : Play) (world after : World) (done : WorkDone) → IsValid plan → IsPlayWorld (play_cast_of plan) recent play world
        → HaveTunnels (play_cast_of plan) play → Finish world done after → Sound after → HasNoneOut after → HasStopped plan 0 after }
    ensures stops { (plan : PlanValue) (recent : ℕ) (play : Play) (streams : List Stream) (world : World) → IsValid plan → Sound world
        → IsPlayWorld (play_cast_of plan) recent play (inside (mend streams world)) → HaveTunnels (play_cast_of plan) play → HasNoneOut world → HasStopped plan 0 world }
{}
