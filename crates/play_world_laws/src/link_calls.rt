//! What the releases, the hand-overs and the hand-backs of a link are in a world of a play, in both directions, also
//! while the link is being changed. Stated on functions that do nothing.

ghost use Rattle.std.specs.Prelude.{◌≡◌, ℕ, ◌<◌, true, false, Result, Ok};
ghost use Rattle.omx_types.specs.declared.error.OmxError.{OmxError};
ghost use Rattle.omx_types.specs.declared.handle.Handle.{Handle};
ghost use Rattle.il_machine.specs.declared.answer.Acted.{Acted};
ghost use Rattle.il_machine.specs.declared.answer.Acted.TheVariants.{Did};
ghost use Rattle.il_machine.specs.Flow.{HandBack, HandOver, Release};
ghost use Rattle.il_machine.specs.Headers.{seen};
ghost use Rattle.il_machine.specs.Lists.{is_empty};
ghost use Rattle.il_machine.specs.World.{World};
ghost use Rattle.play_model.specs.Acts.{Act, CanAct, acted};
ghost use Rattle.play_model.specs.Play.{Play, other_component, supplier};
ghost use Rattle.play_world_laws.specs.Cast.{away_at, home_at, links_of};
ghost use Rattle.play_world_laws.specs.Worlds.{Names};
ghost use Rattle.play_world_laws.specs.PlayWorlds.{IsPlayWorld, PlayCast};
ghost use Rattle.play_world_laws.specs.Leading.{PlayLeadsTo};

/// The supplier of a link hands over exactly where the model can.
pub fn law_of_play_hand_overs()
    ensures done { (cast : PlayCast) (recent : ℕ) (play : Play) (world : World) (link : ℕ) (handle : Handle) (result : Result Acted OmxError) (after : World)
        → IsPlayWorld cast recent play world → CanAct (cast.cast).layout play (Act.HandOver link) → Names cast.cast world (supplier (cast.cast).layout link) handle
        → HandOver world handle (home_at cast.cast link).port result after
        → (result ≡ Ok Did) × PlayLeadsTo cast recent (acted (cast.cast).layout (Act.HandOver link) play) after }
    ensures can { (cast : PlayCast) (recent : ℕ) (play : Play) (world : World) (link : ℕ) (handle : Handle) (result : Result Acted OmxError) (after : World)
        → IsPlayWorld cast recent play world → link < links_of cast.cast → Names cast.cast world (supplier (cast.cast).layout link) handle
        → HandOver world handle (home_at cast.cast link).port result after → result ≡ Ok Did → CanAct (cast.cast).layout play (Act.HandOver link) }
{}

/// The other end hands back a header, of its done or unused, exactly where the model can.
pub fn law_of_play_hand_backs()
    ensures done { (cast : PlayCast) (recent : ℕ) (play : Play) (world : World) (link : ℕ) (handle : Handle) (result : Result Acted OmxError) (after : World)
        → IsPlayWorld cast recent play world → CanAct (cast.cast).layout play (Act.HandBack link) → Names cast.cast world (other_component (cast.cast).layout link) handle
        → HandBack world handle (away_at cast.cast link).port result after
        → (result ≡ Ok Did) × PlayLeadsTo cast recent (acted (cast.cast).layout (Act.HandBack link) play) after }
    ensures can { (cast : PlayCast) (recent : ℕ) (play : Play) (world : World) (link : ℕ) (handle : Handle) (result : Result Acted OmxError) (after : World)
        → IsPlayWorld cast recent play world → link < links_of cast.cast → Names cast.cast world (other_component (cast.cast).layout link) handle
        → HandBack world handle (away_at cast.cast link).port result after → result ≡ Ok Did
        → is_empty ((seen world.headers).done (away_at cast.cast link)) ≡ false → CanAct (cast.cast).layout play (Act.HandBack link) }
    ensures unused { (cast : PlayCast) (recent : ℕ) (play : Play) (world : World) (link : ℕ) (handle : Handle) (result : Result Acted OmxError) (after : World)
        → IsPlayWorld cast recent play world → CanAct (cast.cast).layout play (Act.HandUnused link) → Names cast.cast world (other_component (cast.cast).layout link) handle
        → HandBack world handle (away_at cast.cast link).port result after
        → (result ≡ Ok Did) × PlayLeadsTo cast recent (acted (cast.cast).layout (Act.HandUnused link) play) after }
    ensures unused_can { (cast : PlayCast) (recent : ℕ) (play : Play) (world : World) (link : ℕ) (handle : Handle) (result : Result Acted OmxError) (after : World)
        → IsPlayWorld cast recent play world → link < links_of cast.cast → Names cast.cast world (other_component (cast.cast).layout link) handle
        → HandBack world handle (away_at cast.cast link).port result after → result ≡ Ok Did
        → is_empty ((seen world.headers).done (away_at cast.cast link)) ≡ true → CanAct (cast.cast).layout play (Act.HandUnused link) }
{}

/// The supplier of a link unmakes a header exactly where the model can.
pub fn law_of_play_releases()
    ensures done { (cast : PlayCast) (recent : ℕ) (play : Play) (world : World) (link : ℕ) (handle : Handle) (result : Result Acted OmxError) (after : World)
        → IsPlayWorld cast recent play world → CanAct (cast.cast).layout play (Act.Release link) → Names cast.cast world (supplier (cast.cast).layout link) handle
        → Release world handle (home_at cast.cast link).port result after
        → (result ≡ Ok Did) × PlayLeadsTo cast recent (acted (cast.cast).layout (Act.Release link) play) after }
    ensures can { (cast : PlayCast) (recent : ℕ) (play : Play) (world : World) (link : ℕ) (handle : Handle) (result : Result Acted OmxError) (after : World)
        → IsPlayWorld cast recent play world → link < links_of cast.cast → Names cast.cast world (supplier (cast.cast).layout link) handle
        → Release world handle (home_at cast.cast link).port result after → result ≡ Ok Did → CanAct (cast.cast).layout play (Act.Release link) }
{}
