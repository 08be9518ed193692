//! What each act of a change is in a world of a play, in both directions: an act that is accepted is an act of
//! the model, and one that the model can make is accepted. Stated on functions that do nothing; a play with late sources stands
//! on them.

ghost use Rattle.std.specs.Prelude.{◌≡◌, ◌⊎◌, ℕ, ◌<◌, Bool, true, None, Some, Result, Ok, slice_get};
ghost use Rattle.omx_types.specs.declared.error.OmxError.{OmxError};
ghost use Rattle.omx_types.specs.declared.handle.Handle.{Handle};
ghost use Rattle.omx_types.specs.declared.param.Param.TheVariants as params;
ghost use Rattle.omx_types.specs.declared.param.Supplier.{Supplier};
ghost use Rattle.il_machine.specs.declared.answer.Acted.{Acted};
ghost use Rattle.il_machine.specs.declared.answer.Acted.TheVariants.{Did};
ghost use Rattle.il_machine.specs.Claims.{Claim, Claimed, ClaimedWork, WorkSeen};
ghost use Rattle.il_machine.specs.Commands.{RunCommand, SendCommand};
ghost use Rattle.il_machine.specs.Due.{Happens, IsClosed, Transition, is_transition_due};
ghost use Rattle.il_machine.specs.Finishing.{Finish};
ghost use Rattle.il_machine.specs.Headers.{seen};
ghost use Rattle.il_machine.specs.Notes.{EndNote};
ghost use Rattle.il_machine.specs.Parameters.{SetParameter};
ghost use Rattle.il_machine.specs.Stepping.{IsDoneOf, WorkDone};
ghost use Rattle.il_machine.specs.Tunnels.{DropTunnel, SetupTunnel};
ghost use Rattle.il_machine.specs.World.{Component, Work, World};
ghost use Rattle.play_model.specs.Numbers.{both_disables_sent, retuned};
ghost use Rattle.play_model.specs.Acts.{Act, CanAct, acted};
ghost use Rattle.play_model.specs.Play.{Play, component_at};
ghost use Rattle.play_world_laws.specs.Cast.{components_of, giver_of, script_place, supplier_of, taker_of};
ghost use Rattle.play_world_laws.specs.Worlds.{Names};
ghost use Rattle.play_world_laws.specs.PlayWorlds.{IsPlayWorld, PlayCast, port_number};
ghost use Rattle.play_world_laws.specs.Conducting.{IsSendAt, IsSetStep, definition_key, planned, port_command};
ghost use Rattle.play_world_laws.specs.Leading.{PlayLeadsTo};

/// A late source that must announce is claimed, exactly where the model can: its work has no header. As long as it is out the play stays,
/// and the model can; once it is back the source has announced.
pub fn law_of_announcements()
    ensures claimed { (cast : PlayCast) (recent : ℕ) (play : Play) (world : World) (link : ℕ) (handle : Handle) (result : Result Claimed OmxError) (after : World) (component : Component)
        → IsPlayWorld cast recent play world → CanAct (cast.cast).layout play (Act.Announce link) → Names cast.cast world (giver_of cast.cast link) handle
        → slice_get world.components (script_place cast.cast (giver_of cast.cast link)) ≡ Some component → component.work ≡ None → Claim world handle result after
        → (work : WorkSeen) × (result ≡ Ok (ClaimedWork work)) × (work.announces ≡ true) × PlayLeadsTo cast recent play after }
    ensures can { (cast : PlayCast) (recent : ℕ) (play : Play) (world : World) (place : ℕ) (handle : Handle) (result : Result Claimed OmxError) (after : World) (work : WorkSeen)
        → IsPlayWorld cast recent play world → place < components_of cast.cast → Names cast.cast world place handle → Claim world handle result after
        → result ≡ Ok (ClaimedWork work) → work.announces ≡ true
        → (link : ℕ) × (giver_of cast.cast link ≡ place) × CanAct (cast.cast).layout play (Act.Announce link) × PlayLeadsTo cast recent play after }
    ensures finished { (cast : PlayCast) (recent : ℕ) (play : Play) (world : World) (place : ℕ) (component : Component) (work : Work) (done : WorkDone) (after : World)
        → IsPlayWorld cast recent play world → place < components_of cast.cast → slice_get world.components (script_place cast.cast place) ≡ Some component → component.work ≡ Some work
        → work.announces ≡ true → done.component ≡ script_place cast.cast place → IsDoneOf world component work done → Finish world done after
        → (link : ℕ) × (giver_of cast.cast link ≡ place) × CanAct (cast.cast).layout play (Act.Announce link) × PlayLeadsTo cast recent (acted (cast.cast).layout (Act.Announce link) play) after }
{}

/// The client object is given back once it was heard that the settings changed, or that a disable or an enable was done.
pub fn law_of_told_changes()
    ensures settings { (cast : PlayCast) (recent : ℕ) (play : Play) (world : World) (link : ℕ) (handle : Handle) (after : World) (component : Component)
        → IsPlayWorld cast recent play world → CanAct (cast.cast).layout play (Act.TellSettings link) → Names cast.cast world (giver_of cast.cast link) handle
        → slice_get world.components (script_place cast.cast (giver_of cast.cast link)) ≡ Some component → component.client_out ≡ true → EndNote world handle after
        → PlayLeadsTo cast recent (acted (cast.cast).layout (Act.TellSettings link) play) after }
    ensures port { (cast : PlayCast) (recent : ℕ) (play : Play) (world : World) (link : ℕ) (output : Bool) (handle : Handle) (after : World) (component : Component)
        → IsPlayWorld cast recent play world → CanAct (cast.cast).layout play (Act.TellPort link output) → Names cast.cast world (component_at (cast.cast).layout output link) handle
        → slice_get world.components (script_place cast.cast (component_at (cast.cast).layout output link)) ≡ Some component → component.client_out ≡ true → EndNote world handle after
        → PlayLeadsTo cast recent (acted (cast.cast).layout (Act.TellPort link output) play) after }
{}

/// What the conductor makes of a link that is being changed is accepted: its disables, the drop of its tunnel, the file's format at
/// both ends, the tunnel again, its enables. From the first on no other link is half changed.
pub fn law_of_conducted_changes()
    ensures sent { (cast : PlayCast) (recent : ℕ) (play : Play) (world : World) (link : ℕ) (output disables : Bool) (handle : Handle) (result : Result (Unit {0}) OmxError) (after : World)
        → IsPlayWorld cast recent play world → CanAct (cast.cast).layout play (Act.Conduct link) → IsSendAt output disables (play.change link).step
        → Names cast.cast world (component_at (cast.cast).layout output link) handle
        → SendCommand world handle (port_command disables (port_number cast.cast output link)) result after
        → (result ≡ Ok tt) × PlayLeadsTo cast link (acted (cast.cast).layout (Act.Conduct link) play) after }
    ensures dropped { (cast : PlayCast) (recent : ℕ) (play : Play) (world : World) (link : ℕ) (other_handle third_handle : Handle) (result : Result (Unit {0}) OmxError) (after : World)
        → IsPlayWorld cast recent play world → CanAct (cast.cast).layout play (Act.Conduct link) → (play.change link).step ≡ both_disables_sent
        → Names cast.cast world (giver_of cast.cast link) other_handle → Names cast.cast world (taker_of cast.cast link) third_handle
        → DropTunnel world (record { handle = other_handle; index = (cast.cast).output_port link }) (record { handle = third_handle; index = (cast.cast).input_port link }) result after
        → (result ≡ Ok tt) × PlayLeadsTo cast link (acted (cast.cast).layout (Act.Conduct link) play) after }
    ensures set { (cast : PlayCast) (recent : ℕ) (play : Play) (world : World) (link : ℕ) (output : Bool) (handle : Handle) (result : Result (Unit {0}) OmxError) (after : World)
        → IsPlayWorld cast recent play world → CanAct (cast.cast).layout play (Act.Conduct link) → IsSetStep output (play.change link).step
        → Names cast.cast world (component_at (cast.cast).layout output link) handle
        → SetParameter world handle (definition_key (port_number cast.cast output link)) (params.Port (planned cast output link)) result after
        → (result ≡ Ok tt) × PlayLeadsTo cast link (acted (cast.cast).layout (Act.Conduct link) play) after }
    ensures joined { (cast : PlayCast) (recent : ℕ) (play : Play) (world : World) (link : ℕ) (other_handle third_handle : Handle) (result : Result Supplier OmxError) (after : World)
        → IsPlayWorld cast recent play world → CanAct (cast.cast).layout play (Act.Conduct link) → (play.change link).step ≡ retuned
        → Names cast.cast world (giver_of cast.cast link) other_handle → Names cast.cast world (taker_of cast.cast link) third_handle
        → SetupTunnel world (record { handle = other_handle; index = (cast.cast).output_port link }) (record { handle = third_handle; index = (cast.cast).input_port link }) result after
        → (result ≡ Ok (supplier_of cast.cast link)) × PlayLeadsTo cast link (acted (cast.cast).layout (Act.Conduct link) play) after }
{}

/// A component runs the disable or the enable of a port exactly where the model can; what it runs else is its StateSet.
pub fn law_of_port_runs()
    ensures done { (cast : PlayCast) (recent : ℕ) (play : Play) (world : World) (link : ℕ) (output : Bool) (handle : Handle) (result : Result Acted OmxError) (after : World)
        → IsPlayWorld cast recent play world → CanAct (cast.cast).layout play (Act.RunPort link output) → Names cast.cast world (component_at (cast.cast).layout output link) handle
        → RunCommand world handle result after → (result ≡ Ok Did) × PlayLeadsTo cast recent (acted (cast.cast).layout (Act.RunPort link output) play) after }
    ensures can { (cast : PlayCast) (recent : ℕ) (play : Play) (world : World) (place : ℕ) (handle : Handle) (result : Result Acted OmxError) (after : World)
        → IsPlayWorld cast recent play world → place < components_of cast.cast → Names cast.cast world place handle → RunCommand world handle result after → result ≡ Ok Did
        → CanAct (cast.cast).layout play (Act.Run place)
        ⊎ ((link : ℕ) × (output : Bool) × (component_at (cast.cast).layout output link ≡ place) × CanAct (cast.cast).layout play (Act.RunPort link output)) }
{}

/// What happens in the close-out is the transition of a component, or the end of a port's disable or enable, which is that of the model;
/// and in a closed world no port's is due.
pub fn law_of_port_happenings()
    ensures one { (cast : PlayCast) (recent : ℕ) (play : Play) (world after : World)
        → IsPlayWorld cast recent play world → (happens : Happens world after)
        → ((happens.thing ≡ Transition) × (is_transition_due (seen world.headers) happens.component ≡ true))
        ⊎ ((link : ℕ) × (output : Bool) × CanAct (cast.cast).layout play (Act.HappenPort link output)
        × IsPlayWorld cast recent (acted (cast.cast).layout (Act.HappenPort link output) play) after) }
    ensures none { (cast : PlayCast) (recent : ℕ) (play : Play) (world : World) (link : ℕ) (output : Bool)
        → IsPlayWorld cast recent play world → IsClosed world → CanAct (cast.cast).layout play (Act.HappenPort link output) → ⊥ }
{}
