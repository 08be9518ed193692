//! How a graph whose components are joined by links is brought to rest at any time: the notes of each component are taken, each is
//! made Invalid, and the headers of each link go home and are unmade. No act of it is refused. Stated on a function that does nothing.

ghost use Rattle.std.specs.Prelude.{◌≡◌, ℕ, ◌+◌, ◌<◌, Bool, true, false, All, Some, Result, Ok, length};
ghost use Rattle.omx_types.specs.declared.command.Command.TheVariants.{StateSet};
ghost use Rattle.omx_types.specs.declared.error.OmxError.{OmxError};
ghost use Rattle.omx_types.specs.declared.handle.Handle.{Handle};
ghost use Rattle.omx_types.specs.declared.state.State.TheVariants.{Invalid};
ghost use Rattle.il_machine.specs.declared.answer.Acted.{Acted};
ghost use Rattle.il_machine.specs.declared.port.PortKey.{PortKey};
ghost use Rattle.il_machine.specs.Commands.{SendCommand};
ghost use Rattle.il_machine.specs.Due.{IsClosed};
ghost use Rattle.il_machine.specs.Finishing.{Finish};
ghost use Rattle.il_machine.specs.Flow.{HandBack, Release};
ghost use Rattle.il_machine.specs.Look.{look};
ghost use Rattle.il_machine.specs.Notes.{EndNote, TakeNote, Taken, Took, TookNone, TookNote};
ghost use Rattle.il_machine.specs.Sound.{Sound};
ghost use Rattle.il_machine.specs.Stepping.{WorkDone};
ghost use Rattle.il_machine.specs.World.{World, place_of};
ghost use Rattle.play_build_laws.specs.Dismantling.{AreLinks, IsParted};
ghost use Rattle.play_build_laws.specs.Halting.{AreStoppedTo, CanStop, HasEvents, IsAnswered, IsBrought, IsCleared, HasLinks, IsHeard, IsLinked, IsSameButNotes, IsStoppedIn, IsValid, KeepsFiles, headers_at, notes_at};

/// A component's notes are events, and each can be taken; without a note it can be made Invalid. Once all are, each header of a link
/// comes to its input and can be released there. With no header left the graph can be taken apart. A work that comes back leaves the
/// joints, whatever came of it, and makes no component Invalid.
pub fn law_of_halting()
    ensures events { (end : Bool → ℕ → PortKey) (links place : ℕ) (world : World) → IsLinked end links world → place < length world.components → HasEvents place world }
    ensures heard { (place : ℕ) (world after : World) (handle : Handle) (result : Result Took OmxError) → HasEvents place world → place_of handle world.components ≡ Some place
        → TakeNote world handle result after → IsHeard result }
    ensures none_taken { (place : ℕ) (world after : World) (handle : Handle) → HasEvents place world → place_of handle world.components ≡ Some place
        → TakeNote world handle (Ok TookNone) after → notes_at place (look world) ≡ 0 }
    ensures taken { (place : ℕ) (world after middle : World) (handle : Handle) (taken : Taken) → HasEvents place world → IsClosed world → place_of handle world.components ≡ Some place
        → TakeNote world handle (Ok (TookNote taken)) after → EndNote after handle middle → HasEvents place middle × IsSameButNotes world middle × (notes_at place (look middle) + 1 ≡ notes_at place (look world)) }
    ensures notes_apart { (end : Bool → ℕ → PortKey) (links place : ℕ) (world after : World) → IsLinked end links world → AreStoppedTo place world → IsSameButNotes world after → Sound after
        → IsLinked end links after × AreStoppedTo place after × KeepsFiles world after }
    ensures stopped { (place : ℕ) (world after : World) (handle : Handle) (result : Result (Unit {0}) OmxError) → CanStop place world → IsClosed world → place_of handle world.components ≡ Some place
        → SendCommand world handle (StateSet Invalid) result after → (result ≡ Ok tt) × IsStoppedIn place world after }
    ensures one_stopped { (end : Bool → ℕ → PortKey) (links place : ℕ) (world after : World) → IsLinked end links world → AreStoppedTo place world → IsStoppedIn place world after
        → IsLinked end links after × AreStoppedTo (place + 1) after × KeepsFiles world after }
    ensures all_stopped { (end : Bool → ℕ → PortKey) (links : ℕ) (world : World) → IsLinked end links world → AreStoppedTo (length world.components) world → IsCleared end links 0 world }
    ensures brought { (end : Bool → ℕ → PortKey) (links link : ℕ) (world after : World) (handle : Handle) (result : Result Acted OmxError)
        → AreLinks end links → IsCleared end links link world → link < links → place_of handle world.components ≡ Some (end false link).component
        → HandBack world handle (end false link).port result after
        → IsCleared end links link after × KeepsFiles world after × IsAnswered (end false link) world after result }
    ensures released { (end : Bool → ℕ → PortKey) (links link : ℕ) (world after : World) (handle : Handle) (result : Result Acted OmxError)
        → IsBrought end links link world → link < links → place_of handle world.components ≡ Some (end true link).component
        → Release world handle (end true link).port result after
        → IsBrought end links link after × KeepsFiles world after × IsAnswered (end true link) world after result }
    ensures next { (end : Bool → ℕ → PortKey) (links link : ℕ) (world : World) → IsBrought end links link world → headers_at (end true link) (look world) ≡ 0 → IsCleared end links (link + 1) world }
    ensures cleared { (end : Bool → ℕ → PortKey) (links : ℕ) (world : World) → IsCleared end links links world → IsParted end links 0 world }
    ensures finished { (end : Bool → ℕ → PortKey) (links : ℕ) (world after : World) (done : WorkDone) → HasLinks end links world → All IsValid world.components → Finish world done after
        → HasLinks end links after × All IsValid after.components × (length after.components ≡ length world.components) }
{}
