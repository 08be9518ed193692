//! The streams of a play's worlds where late sources play, too: the bytes that are on their way in each link, those that its input has
//! taken, and those that the files of the sinks took. Each act of a play keeps that they are what the plain functions give of the
//! files, also while a link is being changed, however the world is read as a play. Stated on functions that do nothing.

ghost use Rattle.std.specs.Prelude.{◌≡◌, ℕ, ◌<◌, ◌≤◌, Bool, true, Result};
ghost use Rattle.omx_types.specs.declared.command.Command.TheVariants.{StateSet};
ghost use Rattle.omx_types.specs.declared.error.CallError.{CallError};
ghost use Rattle.omx_types.specs.declared.error.OmxError.{OmxError};
ghost use Rattle.omx_types.specs.declared.handle.Handle.{Handle};
ghost use Rattle.omx_types.specs.declared.param.Param.TheVariants as params;
ghost use Rattle.omx_types.specs.declared.param.Supplier.{Supplier};
ghost use Rattle.il_machine.specs.declared.answer.Acted.{Acted};
ghost use Rattle.il_machine.specs.Claims.{Claim, Claimed};
ghost use Rattle.il_machine.specs.Commands.{RunCommand, SendCommand};
ghost use Rattle.il_machine.specs.Flow.{HandBack, HandOver, Release, Supply};
ghost use Rattle.il_machine.specs.Notes.{EndNote, TakeNote, Took};
ghost use Rattle.il_machine.specs.Parameters.{SetParameter};
ghost use Rattle.il_machine.specs.Tunnels.{DropTunnel, SetupTunnel};
ghost use Rattle.il_machine.specs.World.{World};
ghost use Rattle.play_model.specs.Numbers.{to_idle};
ghost use Rattle.play_model.specs.Acts.{Act, CanAct, acted};
ghost use Rattle.play_model.specs.Play.{Play, component_at, other_component, supplier};
ghost use Rattle.play_world_laws.specs.Cast.{away_at, components_of, giver_of, home_at, links_of, taker_of};
ghost use Rattle.play_world_laws.specs.Standing.{target};
ghost use Rattle.play_world_laws.specs.Worlds.{Names};
ghost use Rattle.play_world_laws.specs.PlayWorlds.{IsPlayWorld, PlayCast, port_number};
ghost use Rattle.play_world_laws.specs.Conducting.{definition_key, planned, port_command};
ghost use Rattle.play_stream_laws.specs.Contents.{PlayContents};
ghost use Rattle.play_stream_laws.specs.Streams.{AreNew};
ghost use Rattle.play_stream_laws.specs.PlayContents.{HasPlayContents};
ghost use Rattle.play_stream_laws.specs.PlayStreams.{HasPlayStreams};

/// A world in which nothing flowed yet, and no sink's file took anything, has streams; so it has as the conductor begins the next
/// StateSet, and as it is read as another play in the same phase.
pub fn law_of_begun_streams()
    ensures opened { (cast : PlayCast) (contents : PlayContents) (recent : ℕ) (play : Play) (world : World) → IsPlayWorld cast recent play world → play.phase ≤ to_idle → HasPlayContents cast contents world
        → AreNew cast.cast world → HasPlayStreams cast contents play world }
    ensures begun { (cast : PlayCast) (contents : PlayContents) (recent : ℕ) (play : Play) (world : World) → IsPlayWorld cast recent play world → CanAct (cast.cast).layout play Act.Begin
        → HasPlayStreams cast contents play world → HasPlayStreams cast contents (acted (cast.cast).layout Act.Begin play) world }
    ensures read { (cast : PlayCast) (contents : PlayContents) (recent later : ℕ) (play next : Play) (world : World) → IsPlayWorld cast recent play world → HasPlayStreams cast contents play world
        → IsPlayWorld cast later next world → next.phase ≡ play.phase → HasPlayStreams cast contents next world }
{}

/// What a component is sent, runs, tells and claims moves no bytes.
pub fn law_of_component_streams()
    ensures sent { (cast : PlayCast) (contents : PlayContents) (recent later : ℕ) (play next : Play) (world after : World) (place : ℕ) (handle : Handle) (result : Result (Unit {0}) OmxError)
        → IsPlayWorld cast recent play world → HasPlayStreams cast contents play world → IsPlayWorld cast later next after → next.phase ≡ play.phase → place < components_of cast.cast → Names cast.cast world place handle
        → SendCommand world handle (StateSet (target play.phase)) result after → HasPlayStreams cast contents next after }
    ensures ran { (cast : PlayCast) (contents : PlayContents) (recent later : ℕ) (play next : Play) (world after : World) (place : ℕ) (handle : Handle) (result : Result Acted OmxError)
        → IsPlayWorld cast recent play world → HasPlayStreams cast contents play world → IsPlayWorld cast later next after → next.phase ≡ play.phase → place < components_of cast.cast → Names cast.cast world place handle
        → RunCommand world handle result after → HasPlayStreams cast contents next after }
    ensures told { (cast : PlayCast) (contents : PlayContents) (recent later : ℕ) (play next : Play) (world after : World) (place : ℕ) (handle : Handle) (result : Result Took OmxError)
        → IsPlayWorld cast recent play world → HasPlayStreams cast contents play world → IsPlayWorld cast later next after → next.phase ≡ play.phase → place < components_of cast.cast → Names cast.cast world place handle
        → TakeNote world handle result after → HasPlayStreams cast contents next after }
    ensures heard { (cast : PlayCast) (contents : PlayContents) (recent later : ℕ) (play next : Play) (world after : World) (place : ℕ) (handle : Handle)
        → IsPlayWorld cast recent play world → HasPlayStreams cast contents play world → IsPlayWorld cast later next after → next.phase ≡ play.phase → place < components_of cast.cast → Names cast.cast world place handle
        → EndNote world handle after → HasPlayStreams cast contents next after }
    ensures claimed { (cast : PlayCast) (contents : PlayContents) (recent later : ℕ) (play next : Play) (world after : World) (place : ℕ) (handle : Handle) (result : Result Claimed OmxError)
        → IsPlayWorld cast recent play world → HasPlayStreams cast contents play world → IsPlayWorld cast later next after → next.phase ≡ play.phase → place < components_of cast.cast → Names cast.cast world place handle
        → Claim world handle result after → HasPlayStreams cast contents next after }
{}

/// A header that is made, unmade, handed on or handed back leaves the bytes on their way in every link as they are, as long as
/// bytes flow.
pub fn law_of_link_streams()
    ensures supplied { (cast : PlayCast) (contents : PlayContents) (recent later : ℕ) (play next : Play) (world after : World) (link : ℕ) (handle : Handle) (result : Result Acted CallError)
        → IsPlayWorld cast recent play world → HasPlayStreams cast contents play world → IsPlayWorld cast later next after → next.phase ≡ play.phase → link < links_of cast.cast
        → Names cast.cast world (supplier (cast.cast).layout link) handle → Supply world handle (home_at cast.cast link).port result after → HasPlayStreams cast contents next after }
    ensures released { (cast : PlayCast) (contents : PlayContents) (recent later : ℕ) (play next : Play) (world after : World) (link : ℕ) (handle : Handle) (result : Result Acted OmxError)
        → IsPlayWorld cast recent play world → HasPlayStreams cast contents play world → IsPlayWorld cast later next after → next.phase ≡ play.phase → link < links_of cast.cast
        → Names cast.cast world (supplier (cast.cast).layout link) handle → Release world handle (home_at cast.cast link).port result after → HasPlayStreams cast contents next after }
    ensures handed_over { (cast : PlayCast) (contents : PlayContents) (recent later : ℕ) (play next : Play) (world after : World) (link : ℕ) (handle : Handle) (result : Result Acted OmxError)
        → IsPlayWorld cast recent play world → HasPlayStreams cast contents play world → IsPlayWorld cast later next after → next.phase ≡ play.phase → link < links_of cast.cast
        → Names cast.cast world (supplier (cast.cast).layout link) handle → HandOver world handle (home_at cast.cast link).port result after → HasPlayStreams cast contents next after }
    ensures handed_back { (cast : PlayCast) (contents : PlayContents) (recent later : ℕ) (play next : Play) (world after : World) (link : ℕ) (handle : Handle) (result : Result Acted OmxError)
        → IsPlayWorld cast recent play world → HasPlayStreams cast contents play world → IsPlayWorld cast later next after → next.phase ≡ play.phase → link < links_of cast.cast
        → Names cast.cast world (other_component (cast.cast).layout link) handle → HandBack world handle (away_at cast.cast link).port result after → HasPlayStreams cast contents next after }
{}

/// The conductor's acts on a late source's link move no bytes.
pub fn law_of_changed_streams()
    ensures sent { (cast : PlayCast) (contents : PlayContents) (recent later : ℕ) (play next : Play) (world after : World) (link : ℕ) (output disables : Bool) (handle : Handle) (result : Result (Unit {0}) OmxError)
        → IsPlayWorld cast recent play world → HasPlayStreams cast contents play world → IsPlayWorld cast later next after → next.phase ≡ play.phase → link < links_of cast.cast
        → Names cast.cast world (component_at (cast.cast).layout output link) handle
        → SendCommand world handle (port_command disables (port_number cast.cast output link)) result after → HasPlayStreams cast contents next after }
    ensures dropped { (cast : PlayCast) (contents : PlayContents) (recent later : ℕ) (play next : Play) (world after : World) (link : ℕ) (other_handle third_handle : Handle) (result : Result (Unit {0}) OmxError)
        → IsPlayWorld cast recent play world → HasPlayStreams cast contents play world → IsPlayWorld cast later next after → next.phase ≡ play.phase → link < links_of cast.cast
        → Names cast.cast world (giver_of cast.cast link) other_handle → Names cast.cast world (taker_of cast.cast link) third_handle
        → DropTunnel world (record { handle = other_handle; index = (cast.cast).output_port link }) (record { handle = third_handle; index = (cast.cast).input_port link }) result after → HasPlayStreams cast contents next after }
    ensures set { (cast : PlayCast) (contents : PlayContents) (recent later : ℕ) (play next : Play) (world after : World) (link : ℕ) (output : Bool) (handle : Handle) (result : Result (Unit {0}) OmxError)
        → IsPlayWorld cast recent play world → HasPlayStreams cast contents play world → IsPlayWorld cast later next after → next.phase ≡ play.phase → link < links_of cast.cast
        → ((cast.cast).layout).is_late link ≡ true → Names cast.cast world (component_at (cast.cast).layout output link) handle
        → SetParameter world handle (definition_key (port_number cast.cast output link)) (params.Port (planned cast output link)) result after → HasPlayStreams cast contents next after }
    ensures joined { (cast : PlayCast) (contents : PlayContents) (recent later : ℕ) (play next : Play) (world after : World) (link : ℕ) (other_handle third_handle : Handle) (result : Result Supplier OmxError)
        → IsPlayWorld cast recent play world → HasPlayStreams cast contents play world → IsPlayWorld cast later next after → next.phase ≡ play.phase → link < links_of cast.cast
        → Names cast.cast world (giver_of cast.cast link) other_handle → Names cast.cast world (taker_of cast.cast link) third_handle
        → SetupTunnel world (record { handle = other_handle; index = (cast.cast).output_port link }) (record { handle = third_handle; index = (cast.cast).input_port link }) result after → HasPlayStreams cast contents next after }
{}
