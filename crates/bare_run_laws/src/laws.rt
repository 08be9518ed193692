//! What must hold of bare worlds, stated on functions that do nothing.

ghost use Rattle.std.specs.Prelude.{◌≡◌, ℕ, List, Ok, Result, map};
ghost use Rattle.omx_types.specs.declared.command.Command.{Command};
ghost use Rattle.omx_types.specs.declared.command.Event.{Event};
ghost use Rattle.omx_types.specs.declared.error.OmxError.{OmxError};
ghost use Rattle.omx_types.specs.declared.handle.Handle.{Handle};
ghost use Rattle.omx_types.specs.declared.handle.PortId.{PortId};
ghost use Rattle.omx_types.specs.declared.param.Param.{Param};
ghost use Rattle.omx_types.specs.declared.param.ParamKey.{ParamKey};
ghost use Rattle.omx_types.specs.declared.param.Supplier.{Supplier};
ghost use Rattle.il_machine.specs.Acts.{Act, Reply};
ghost use Rattle.il_machine.specs.Claims.{Claim, Claimed};
ghost use Rattle.il_machine.specs.Commands.{RunCommand, SendCommand};
ghost use Rattle.il_machine.specs.Due.{ClosesTo};
ghost use Rattle.il_machine.specs.Finishing.{Finish};
ghost use Rattle.il_machine.specs.Flow.{HandBack, HandOver, Release, Supply};
ghost use Rattle.il_machine.specs.Notes.{EndNote, TakeNote, TakenEvent, TookNote};
ghost use Rattle.il_machine.specs.Parameters.{SetParameter};
ghost use Rattle.il_machine.specs.Run.{Meets, Run, Step};
ghost use Rattle.il_machine.specs.Sound.{Sound};
ghost use Rattle.il_machine.specs.Stepping.{WorkDone};
ghost use Rattle.il_machine.specs.Tunnels.{DropTunnel, SetupTunnel};
ghost use Rattle.il_machine.specs.World.{World};
ghost use Rattle.il_machine.specs.declared.answer.Acted.TheVariants.{Did};
ghost use Rattle.bare_run_laws.specs.Bare.{IsApart, IsKnown, IsOwnCommand, IsUnmarked, Returns, bare, bare_handle, bare_id};
ghost use Rattle.bare_run_laws.specs.Runs.{CanFollow, IsPlayAct, PlayRun, bare_act, bare_step};

/// Each act that a play's log may have goes the same way in the bare world, and so does the close-out. An act of a component that did nothing
/// isn't one of these.
pub fn law_of_bare_acts()
    ensures closing { (world after : World) → ClosesTo world after → ClosesTo (bare world) (bare after) }

    // What the client asks for, accepted or refused.
    ensures sends { (world : World) (handle : Handle) (command : Command) (result : Result (Unit {0}) OmxError) (after : World)
        → IsKnown handle world → IsOwnCommand command → SendCommand world handle command result after → SendCommand (bare world) (bare_handle handle) command result (bare after) }
    ensures sets { (world : World) (handle : Handle) (key : ParamKey) (value : Param) (result : Result (Unit {0}) OmxError) (after : World)
        → IsKnown handle world → SetParameter world handle key value result after → SetParameter (bare world) (bare_handle handle) key value result (bare after) }
    ensures drops { (world : World) (output input : PortId) (result : Result (Unit {0}) OmxError) (after : World) → IsKnown output.handle world → IsKnown input.handle world
        → DropTunnel world output input result after → DropTunnel (bare world) (bare_id output) (bare_id input) result (bare after) }
    ensures setups { (world : World) (output input : PortId) (result : Result Supplier OmxError) (after : World) → IsApart world → IsKnown output.handle world → IsKnown input.handle world
        → SetupTunnel world output input result after → SetupTunnel (bare world) (bare_id output) (bare_id input) result (bare after) }

    // What a component does.
    ensures runs { (world : World) (handle : Handle) (after : World) → IsKnown handle world → RunCommand world handle (Ok Did) after → RunCommand (bare world) (bare_handle handle) (Ok Did) (bare after) }
    ensures supplies { (world : World) (handle : Handle) (port : ℕ) (after : World) → IsKnown handle world → Supply world handle port (Ok Did) after → Supply (bare world) (bare_handle handle) port (Ok Did) (bare after) }
    ensures releases { (world : World) (handle : Handle) (port : ℕ) (after : World) → IsKnown handle world → Release world handle port (Ok Did) after → Release (bare world) (bare_handle handle) port (Ok Did) (bare after) }
    ensures overs { (world : World) (handle : Handle) (port : ℕ) (after : World) → IsKnown handle world → HandOver world handle port (Ok Did) after → HandOver (bare world) (bare_handle handle) port (Ok Did) (bare after) }
    ensures backs { (world : World) (handle : Handle) (port : ℕ) (after : World) → IsKnown handle world → HandBack world handle port (Ok Did) after → HandBack (bare world) (bare_handle handle) port (Ok Did) (bare after) }
    ensures claims { (world : World) (handle : Handle) (result : Result Claimed OmxError) (after : World) → IsKnown handle world → Claim world handle result after → Claim (bare world) (bare_handle handle) result (bare after) }
    ensures finishes { (world : World) (done : WorkDone) (after : World) → IsUnmarked done.headers → Finish world done after → Finish (bare world) done (bare after) }

    // A note is taken, and the client object handed back.
    ensures takes { (world : World) (handle : Handle) (event : Event) (after : World) → IsKnown handle world → TakeNote world handle (Ok (TookNote (TakenEvent event))) after
        → TakeNote (bare world) (bare_handle handle) (Ok (TookNote (TakenEvent event))) (bare after) }
    ensures ends { (world : World) (handle : Handle) (after : World) → IsKnown handle world → EndNote world handle after → EndNote (bare world) (bare_handle handle) (bare after) }
{}

/// The other way round: what such an act does in the bare world it does in the world.
pub fn law_of_bare_returns()
    // What the client asks for.
    ensures sends { (world : World) (handle : Handle) (command : Command) (result : Result (Unit {0}) OmxError) (after : World)
        → IsKnown handle world → IsOwnCommand command → SendCommand (bare world) (bare_handle handle) command result after → Returns (λ v. SendCommand world handle command result v) after }
    ensures sets { (world : World) (handle : Handle) (key : ParamKey) (value : Param) (result : Result (Unit {0}) OmxError) (after : World)
        → IsKnown handle world → SetParameter (bare world) (bare_handle handle) key value result after → Returns (λ v. SetParameter world handle key value result v) after }
    ensures drops { (world : World) (output input : PortId) (result : Result (Unit {0}) OmxError) (after : World) → IsKnown output.handle world → IsKnown input.handle world
        → DropTunnel (bare world) (bare_id output) (bare_id input) result after → Returns (λ v. DropTunnel world output input result v) after }
    ensures setups { (world : World) (output input : PortId) (result : Result Supplier OmxError) (after : World) → IsApart world → IsKnown output.handle world → IsKnown input.handle world
        → SetupTunnel (bare world) (bare_id output) (bare_id input) result after → Returns (λ v. SetupTunnel world output input result v) after }

    // What a component does.
    ensures runs { (world : World) (handle : Handle) (after : World) → IsKnown handle world → RunCommand (bare world) (bare_handle handle) (Ok Did) after → Returns (λ v. RunCommand world handle (Ok Did) v) after }
    ensures supplies { (world : World) (handle : Handle) (port : ℕ) (after : World) → IsKnown handle world → Supply (bare world) (bare_handle handle) port (Ok Did) after → Returns (λ v. Supply world handle port (Ok Did) v) after }
    ensures releases { (world : World) (handle : Handle) (port : ℕ) (after : World) → IsKnown handle world → Release (bare world) (bare_handle handle) port (Ok Did) after → Returns (λ v. Release world handle port (Ok Did) v) after }
    ensures overs { (world : World) (handle : Handle) (port : ℕ) (after : World) → IsKnown handle world → HandOver (bare world) (bare_handle handle) port (Ok Did) after → Returns (λ v. HandOver world handle port (Ok Did) v) after }
    ensures backs { (world : World) (handle : Handle) (port : ℕ) (after : World) → IsKnown handle world → HandBack (bare world) (bare_handle handle) port (Ok Did) after → Returns (λ v. HandBack world handle port (Ok Did) v) after }
    ensures claims { (world : World) (handle : Handle) (result : Result Claimed OmxError) (after : World) → IsKnown handle world → Claim (bare world) (bare_handle handle) result after → Returns (λ v. Claim world handle result v) after }
    ensures finishes { (world : World) (done : WorkDone) (after : World) → IsUnmarked done.headers → Finish (bare world) done after → Returns (λ v. Finish world done v) after }
    // A note is taken, and the client object handed back.
    ensures takes { (world : World) (handle : Handle) (event : Event) (after : World) → IsKnown handle world → TakeNote (bare world) (bare_handle handle) (Ok (TookNote (TakenEvent event))) after
        → Returns (λ v. TakeNote world handle (Ok (TookNote (TakenEvent event))) v) after }
    ensures ends { (world : World) (handle : Handle) (after : World) → IsKnown handle world → EndNote (bare world) (bare_handle handle) after → Returns (λ v. EndNote world handle v) after }
{}

/// A run of a play's acts goes the same way in the bare worlds, act by act; and so does each step in another world of the same bare form.
pub fn law_of_bare_runs()
    ensures apart { (world : World) → Sound world → IsApart world }
    ensures meets { (world : World) (act : Act) (reply : Reply) → IsPlayAct world act reply → (Meets world act → Meets (bare world) (bare_act act)) × (Meets (bare world) (bare_act act) → Meets world act) }
    ensures goes { (world : World) (steps : List (Act × Reply)) (after : World) → Sound world → PlayRun world steps after → Run (bare world) (map bare_step steps) (bare after) }
    ensures follows { (one other : World) (act : Act) (reply : Reply) (after : World) → bare one ≡ bare other → Sound one → Sound other
        → Meets one act → Step one act reply after → IsPlayAct one act reply → CanFollow other act reply (bare after) }
{}
