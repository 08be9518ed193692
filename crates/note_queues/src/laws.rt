//! What must hold of queues, stated on functions that do nothing.

ghost use Rattle.std.specs.Prelude.{◌≡◌};
ghost use Rattle.il_machine.specs.World.{Component};
ghost use Rattle.il_machine.specs.Room.{room as component_room};
ghost use Rattle.note_queues.specs.Queues.{Queues, commands_of, room};
ghost use Rattle.note_queues.specs.OfComponent.{IsQueueOf};

/// The room of a component's queues is the component's room.
pub fn law_of_room<C>()
    ensures room { (queues : Queues C) (component : Component) → IsQueueOf queues component → room queues ≡ component_room component }
    ensures commands { (queues : Queues C) (component : Component) → IsQueueOf queues component → commands_of queues ≡ component.commands }
{}
