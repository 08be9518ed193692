//! A play as a model: a conductor brings all components up and down again, headers are made, flow, come home and are
//! unmade; the link of a source that finds another format in its file than at its port is disabled, set and enabled again
//! on the way. Some act can always be made until all is over, each act leaves less to be made, and what the links have
//! carried in the end is what the plain functions give of the files. It knows of no handle, queue or memory; a world of
//! the machine is read as such a play.

ghost use Rattle.std.specs.Prelude.{◌≡◌, ◌++◌, ◌+◌, ◌<◌, ◌≤◌, ◌⊎◌, ℕ, Bool, true, List, length};
ghost use Rattle.play_model.specs.Progress.{AllEnded, IsFirst};
ghost use Rattle.play_model.specs.Content.{Contents, Streams};
ghost use Rattle.play_model.specs.Play.{Layout, Play, IsRunning, IsUnbroken, made};
ghost use Rattle.play_model.specs.Changes.{IsChanged};
ghost use Rattle.play_model.specs.Acts.{Act, CanAct, CanActs, acted, all_acted};
ghost use Rattle.play_model.specs.Reached.{a_link, a_play, IsReached, IsBegun, IsOver, IsFlowActOf, IsUnset, IsAwaitedAt, ComesBefore, acts_left};
ghost use Rattle.play_model.specs.Files.{IsPlayed, all_act_streamed};

/// Each act leads from a reached play to a reached one, and an opening is one; in each of them some act can be made, or
/// the play is over: a play is never stuck.
pub fn law_of_plays()
    ensures begun { (layout : Layout) (play : Play) → IsBegun layout play → IsReached layout play }
    ensures kept { (layout : Layout) (play : Play) (act : Act) → IsReached layout play → CanAct layout play act
        → IsReached layout (acted layout act play) }
    // While all are Executing with nothing pending and no link is half changed: of the components that haven't ended take
    // those with the fewest frames done, of these the first in the order of placing. It has its step, or a hand-over or
    // hand-back on one of its links; or one of its ports is held or has its format open, and then the late source of that
    // link can announce, or a note can be told, or the conductor can begin a change.
    ensures fewest { (layout : Layout) (play : Play) (place : ℕ) → IsReached layout play
        → ((other : ℕ) → other < (layout.network).components → IsRunning play other) → IsUnbroken layout play → IsFirst layout.network play.flow place
        → ((act : Act) × IsFlowActOf layout place act × CanAct layout play act)
        ⊎ ((link : ℕ) × IsUnset layout play place link × ((act : Act) × IsAwaitedAt link act × CanAct layout play act)) }
    ensures enabled { (layout : Layout) (play : Play) → IsReached layout play → ((act : Act) × CanAct layout play act) ⊎ IsOver layout play }
{}

/// Each act leaves less to be made, by three numbers that are compared in their order, and by the one number that holds
/// the three; so no list of acts is longer than the number that its play began with.
pub fn law_of_return()
    ensures less { (layout : Layout) (play : Play) (act : Act) → IsReached layout play → CanAct layout play act
        → ComesBefore layout (acted layout act play) play }
    ensures number { (layout : Layout) (play : Play) (act : Act) → IsReached layout play → CanAct layout play act
        → acts_left layout (acted layout act play) < acts_left layout play }
    ensures bound { (layout : Layout) (play : Play) (acts : List Act) → IsReached layout play → CanActs layout play acts
        → acts_left layout (all_acted layout acts play) + length acts ≤ acts_left layout play }
{}

/// There is a play, of a source or a late source and a sink; and from each reached play some acts lead to its end.
pub fn law_of_ends()
    ensures some { (late : Bool) → IsBegun (a_link late) a_play }
    ensures ends { (layout : Layout) (play : Play) → IsReached layout play
        → (acts : List Act) × CanActs layout play acts × IsOver layout (all_acted layout acts play) }
{}

/// Where a play is over all components have ended, the link of each late source was changed, no header is made, and each
/// input has taken what the plain functions give of the files; at each moment before it has taken a front of that.
pub fn law_of_over()
    ensures ended { (layout : Layout) (play : Play) → IsReached layout play → IsOver layout play → AllEnded layout.network play.flow }
    ensures changed { (layout : Layout) (play : Play) → IsReached layout play → IsOver layout play → (link : ℕ) → link < (layout.network).links
        → layout.is_late link ≡ true → IsChanged (play.change link) }
    ensures unmade { (layout : Layout) (play : Play) → IsReached layout play → IsOver layout play → (link : ℕ) → link < (layout.network).links
        → made play link ≡ 0 }
    ensures files { (layout : Layout) (contents : Contents) (play : Play) (st : Streams) (acts : List Act)
        (stream : ℕ → List ℕ) → IsPlayed layout contents play st acts stream
        → IsOver layout (all_acted layout acts play) → (link : ℕ) → link < (layout.network).links
        → (all_act_streamed layout contents play acts st).taken link ≡ stream link }
    ensures fronts { (layout : Layout) (contents : Contents) (play : Play) (st : Streams) (acts : List Act)
        (stream : ℕ → List ℕ) → IsPlayed layout contents play st acts stream
        → (link : ℕ) → link < (layout.network).links
        → (rest : List ℕ) × ((all_act_streamed layout contents play acts st).taken link ++ rest ≡ stream link) }
{}
