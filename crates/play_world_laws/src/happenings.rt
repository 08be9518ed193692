//! What happens in the close-out of a world of a play, in both directions; and an act of the machine with its whole
//! close-out. Stated on functions that do nothing.

ghost use Rattle.std.specs.Prelude.{ℕ};
ghost use Rattle.il_machine.specs.Due.{ClosesTo, Happens, IsClosed};
ghost use Rattle.il_machine.specs.World.{World};
ghost use Rattle.play_loop.specs.Turns.{HasActed, IsAtRest};
ghost use Rattle.play_model.specs.Acts.{Act, CanAct, acted};
ghost use Rattle.play_model.specs.Play.{Layout, Play};
ghost use Rattle.play_model.specs.Reached.{IsBegun, IsReached};
ghost use Rattle.play_world_laws.specs.PlayWorlds.{IsPlayWorld, PlayCast};
ghost use Rattle.play_world_laws.specs.Leading.{PlayLeadsTo};
ghost use Rattle.play_world_laws.specs.Happenings.{IsHappening, PlayHappensTo};
ghost use Rattle.play_world_laws.specs.Waiting.{IsWaiting};

/// From its opening on, whatever is done in a play, no late source that doesn't run yet has announced anything.
pub fn law_of_waiting()
    ensures begun { (layout : Layout) (play : Play) → IsBegun layout play → IsWaiting layout play }
    ensures kept { (layout : Layout) (play : Play) (act : Act) → IsReached layout play → CanAct layout play act → IsWaiting layout play → IsWaiting layout (acted layout act play) }
{}

/// What happens in the close-out is a happening of the model, so a whole close-out is a list of them, and in a closed world the
/// model can make none.
pub fn law_of_play_happenings()
    ensures one { (cast : PlayCast) (recent : ℕ) (play : Play) (world after : World)
        → IsPlayWorld cast recent play world → IsWaiting (cast.cast).layout play → Happens world after
        → (act : Act) × IsHappening act × CanAct (cast.cast).layout play act × IsPlayWorld cast recent (acted (cast.cast).layout act play) after }
    ensures closing { (cast : PlayCast) (recent : ℕ) (play : Play) (world after : World)
        → IsPlayWorld cast recent play world → IsWaiting (cast.cast).layout play → ClosesTo world after → PlayHappensTo cast recent play after }
    ensures none { (cast : PlayCast) (recent : ℕ) (play : Play) (world : World)
        → IsPlayWorld cast recent play world → IsClosed world → IsAtRest (cast.cast).layout play }
{}

/// An act of the machine with its close-out is that act of the model and as many happenings as are due; then nothing is. What is
/// nothing for the play stays so with its close-out.
pub fn law_of_play_closings()
    ensures acted { (cast : PlayCast) (recent : ℕ) (play : Play) (act : Act) (world : World)
        → IsReached (cast.cast).layout play → IsWaiting (cast.cast).layout play → CanAct (cast.cast).layout play act → PlayLeadsTo cast recent (acted (cast.cast).layout act play) world
        → (next : Play) × HasActed (cast.cast).layout play next × IsAtRest (cast.cast).layout next × IsWaiting (cast.cast).layout next × IsPlayWorld cast recent next world }
    ensures idle { (cast : PlayCast) (recent : ℕ) (play : Play) (world after : World)
        → IsPlayWorld cast recent play world → IsWaiting (cast.cast).layout play → IsClosed world → PlayLeadsTo cast recent play after → IsPlayWorld cast recent play after × IsClosed after }
{}
