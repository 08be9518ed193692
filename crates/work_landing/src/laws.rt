//! What must hold of works that come back, stated on functions that do nothing.
ghost use Rattle.std.specs.Prelude.{◌≡◌, ℕ, List, Option};
ghost use Rattle.header_core.specs.BufferHeader.{BufferHeader};
ghost use Rattle.il_machine.specs.Finishing as machine;
ghost use Rattle.il_machine.specs.Stepping.{WorkDone};
ghost use Rattle.il_machine.specs.Stock.{StandsFor, Stocked};
ghost use Rattle.il_machine.specs.World.{Component, HeaderRecord, Stream, number_of};
ghost use Rattle.work_landing.specs.Places.{HaveOwnHeaders, carried_from};
ghost use Rattle.work_landing.specs.Landed.{AreHomeless, AreUnkept, all_landed};

/// What the stock of a work's headers comes to stands for the flat list as the machine leaves it.
pub fn law_of_landing()
    ensures { (component : Component) (stream : Stream) (done : WorkDone) (places : List (Option BufferHeader)) (stocked : Stocked) (headers : List HeaderRecord)
        → StandsFor stocked headers → AreHomeless (number_of component) 0 places stocked → AreUnkept places stocked → HaveOwnHeaders places
        → StandsFor (all_landed component stream done (carried_from 0 places) stocked) (machine.all_landed component stream done (carried_from 0 places) headers) }
{}
