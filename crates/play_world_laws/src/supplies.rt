//! What a supply of a link's header is in a world of a play, in both directions, also while the link is being
//! changed. Stated on a function that does nothing.

ghost use Rattle.std.specs.Prelude.{◌≡◌, ℕ, ◌<◌, Result, Ok};
ghost use Rattle.omx_types.specs.declared.error.CallError.{CallError};
ghost use Rattle.omx_types.specs.declared.handle.Handle.{Handle};
ghost use Rattle.il_machine.specs.declared.answer.Acted.{Acted};
ghost use Rattle.il_machine.specs.declared.answer.Acted.TheVariants.{Did};
ghost use Rattle.il_machine.specs.Flow.{Supply};
ghost use Rattle.il_machine.specs.World.{World};
ghost use Rattle.play_model.specs.Acts.{Act, CanAct, acted};
ghost use Rattle.play_model.specs.Play.{Play, supplier};
ghost use Rattle.play_world_laws.specs.Cast.{home_at, links_of};
ghost use Rattle.play_world_laws.specs.Worlds.{Names};
ghost use Rattle.play_world_laws.specs.PlayWorlds.{IsPlayWorld, PlayCast};
ghost use Rattle.play_world_laws.specs.Leading.{PlayLeadsTo};

/// The supplier of a link makes a header exactly where the model can.
pub fn law_of_play_supplies()
    ensures done { (cast : PlayCast) (recent : ℕ) (play : Play) (world : World) (link : ℕ) (handle : Handle) (result : Result Acted CallError) (after : World)
        → IsPlayWorld cast recent play world → CanAct (cast.cast).layout play (Act.Supply link) → Names cast.cast world (supplier (cast.cast).layout link) handle
        → Supply world handle (home_at cast.cast link).port result after
        → (result ≡ Ok Did) × PlayLeadsTo cast recent (acted (cast.cast).layout (Act.Supply link) play) after }
    ensures can { (cast : PlayCast) (recent : ℕ) (play : Play) (world : World) (link : ℕ) (handle : Handle) (result : Result Acted CallError) (after : World)
        → IsPlayWorld cast recent play world → link < links_of cast.cast → Names cast.cast world (supplier (cast.cast).layout link) handle
        → Supply world handle (home_at cast.cast link).port result after → result ≡ Ok Did → CanAct (cast.cast).layout play (Act.Supply link) }
{}
