//! What must hold of the machine's definitions, stated on functions that do nothing.
#![tactic(auto)]

ghost use Rattle.std.specs.Prelude.{◌≡◌, ℕ, List};
ghost use Rattle.il_machine.specs.World.{World, no_world};
ghost use Rattle.il_machine.specs.Acts.{Act, Reply};
ghost use Rattle.il_machine.specs.Run.{Step, Meets, Run};
ghost use Rattle.il_machine.specs.Census.{Census, HasRoom};
ghost use Rattle.il_machine.specs.Sound.{Sound};
ghost use Rattle.il_machine.specs.Due.{ClosesTo, IsClosed};
ghost use Rattle.machine_laws.specs.Laws.{NinePairs, NothingDue};

/// The supplier of a tunnel, for each pair of preferences.
pub fn law_of_suppliers()
    ensures { NinePairs }
{}

/// A closed world has nothing due, and its close-out changes nothing.
pub fn law_of_closed_worlds()
    ensures rests { (world : World) → IsClosed world → NothingDue world }
    ensures stays { (world after : World) → IsClosed world → ClosesTo world after → after ≡ world }
{}

/// The close-out ends from every world, in one world alone.
pub fn law_of_closing()
    ensures ends { (world : World) → (after : World) × ClosesTo world after }
    ensures once { (world after middle : World) → ClosesTo world after → ClosesTo world middle → after ≡ middle }
{}

/// Each step leads from a sound world to a sound one, and so does the close-out.
pub fn law_of_steps()
    ensures step { (world after : World) (act : Act) (reply : Reply) → Meets world act → Step world act reply after → Sound world → Sound after }
    ensures closing { (world after : World) → ClosesTo world after → Sound world → Sound after }
{}

/// In a sound world each header stands exactly once, and no component has taken or reserved more places than there are.
pub fn law_of_census()
    ensures { (world : World) → Sound world → Census world × HasRoom world }
{}

/// Each run from the world in which nothing was made leads to a sound world, with its census and its room.
pub fn law_of_runs()
    ensures sound { (key units : ℕ) (steps : List (Act × Reply)) (world : World) → Run (no_world key units) steps world → Sound world }
    ensures census { (key units : ℕ) (steps : List (Act × Reply)) (world : World) → Run (no_world key units) steps world → Census world × HasRoom world }
{}
