//! What flows through a network of components joined by links, as numbers and lists alone: the account of a link, why some
//! component or header can always go on, why the moves end, and what each link has carried in the end. It knows of no state,
//! command, supplier or handle; `play_model` puts these round it.

ghost use Rattle.std.specs.Prelude.{◌-◌, ◌++◌, ◌≡◌, ◌+◌, ◌<◌, ◌≤◌, ◌⊎◌, ℕ, Bool, true, false, List, length, ◌*◌};
ghost use Rattle.play_model.specs.Network.{Network, IsNetwork, Flow};
ghost use Rattle.play_model.specs.Moves.{Move, CanClaim, HasNumber, Can, CanAll, moved, all_moved};
ghost use Rattle.play_model.specs.Moves.Move.{Step};
ghost use Rattle.play_model.specs.Account.{IsSound, IsFull, HasFullOutputs, IsOpening};
ghost use Rattle.play_model.specs.Content.{Contents, AreContents, Streams, streamed, all_streamed, AreStreams, AreEmpty, ArePlain, IsFrontOf};
ghost use Rattle.play_model.specs.Exact.{step_frames};
ghost use Rattle.play_model.specs.Progress.{IsFirst, IsEnabled, AllEnded, IsLess, IsComplete, moves_left};

/// The account of every link holds where nothing was done yet, and each move keeps it; no move makes or unmakes a header.
pub fn law_of_account()
    ensures opening { (net : Network) (flow : Flow) → IsNetwork net → IsOpening net flow → IsSound net flow }
    ensures kept { (net : Network) (flow : Flow) (way : Move) → IsNetwork net → IsSound net flow → Can net flow way
        → IsSound net (moved net way flow) }
    ensures full { (net : Network) (flow : Flow) (way : Move) → IsNetwork net → IsFull net flow → Can net flow way
        → IsFull net (moved net way flow) }
{}

/// Never stuck. Of the components that haven't ended take those with the fewest frames done, of these the first in the
/// order of placing: it may claim, or a header of one of its links may go on or come back, where each link that it gives
/// into has all its headers. A claim that may be made has a step, whose number of frames may be the one that the rule of
/// parts gives. Where all have ended each component has done its frames.
pub fn law_of_enabled_moves()
    ensures enabled { (net : Network) (flow : Flow) (place : ℕ) → IsNetwork net → IsSound net flow
        → HasFullOutputs net flow place → IsFirst net flow place → IsEnabled net flow place }
    ensures first { (net : Network) (flow : Flow) → ((place : ℕ) × IsFirst net flow place) ⊎ AllEnded net flow }
    ensures steps { (net : Network) (flow : Flow) (place : ℕ) → IsNetwork net → IsSound net flow → CanClaim net flow place
        → (number : ℕ) × (last : Bool) × Can net flow (Step place number last) }
    ensures exact { (net : Network) (flow : Flow) (place : ℕ) → IsNetwork net → IsSound net flow → CanClaim net flow place
        → HasNumber net flow place (step_frames net flow place) }
    ensures some { (net : Network) (flow : Flow) → IsNetwork net → IsSound net flow → IsFull net flow
        → ((way : Move) × Can net flow way) ⊎ AllEnded net flow }
    ensures complete { (net : Network) (flow : Flow) → IsNetwork net → IsSound net flow → AllEnded net flow
        → IsComplete net flow }
{}

/// Each move leaves less work, or as much and fewer headers that wait to be handed on; so no list of moves is longer than
/// the number that its flow began with.
pub fn law_of_ending()
    ensures less { (net : Network) (flow : Flow) (way : Move) → IsNetwork net → IsSound net flow → Can net flow way
        → IsLess net (moved net way flow) flow }
    ensures bound { (net : Network) (flow : Flow) (ms : List Move) → IsNetwork net → IsSound net flow
        → IsFull net flow → CanAll net flow ms
        → moves_left net (all_moved net ms flow) + length ms ≤ moves_left net flow }
{}

/// What an input has taken, followed by what is on its way, is what its giver's plain function gives of what came into
/// the giver; at each moment that is a front of the link's whole stream, and where all have ended each input has taken
/// its whole stream.
pub fn law_of_streams()
    ensures opening { (net : Network) (contents : Contents) (flow : Flow) (st : Streams) → AreContents net contents
        → IsOpening net flow → AreEmpty st → AreStreams net contents flow st }
    ensures kept { (net : Network) (contents : Contents) (flow : Flow) (st : Streams) (way : Move) → IsNetwork net
        → AreContents net contents → IsSound net flow → Can net flow way
        → AreStreams net contents flow st → AreStreams net contents (moved net way flow) (streamed net contents flow way st) }
    ensures fronts { (net : Network) (contents : Contents) (flow : Flow) (st : Streams) (stream : ℕ → List ℕ)
        → IsNetwork net → AreContents net contents → IsSound net flow → AreStreams net contents flow st
        → ArePlain net contents stream → (link : ℕ) → link < net.links
        → IsFrontOf (st.taken link ++ st.flowing link) (stream link) ((net.frames (net.giver link) - flow.done (net.giver link)) * contents.unit link) }
    ensures ended { (net : Network) (contents : Contents) (flow : Flow) (st : Streams) (ms : List Move)
        (stream : ℕ → List ℕ) → IsNetwork net → AreContents net contents
        → IsOpening net flow → AreEmpty st → CanAll net flow ms → AllEnded net (all_moved net ms flow)
        → ArePlain net contents stream
        → (link : ℕ) → link < net.links → (all_streamed net contents flow ms st).taken link ≡ stream link }
{}
