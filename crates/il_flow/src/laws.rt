//! What must hold of works, stated on functions that do nothing.
ghost use Rattle.std.specs.Prelude.{◌≡◌, ℕ, List, Option, length};
ghost use Rattle.header_core.specs.BufferHeader.{BufferHeader};
ghost use Rattle.il_machine.specs.declared.header.HeaderState.{HeaderState};
ghost use Rattle.il_flow.specs.Places.{AreHeadersOf, AreSame, carried_from};

/// Of the headers of a work as much is known after its step as was before.
pub fn law_of_sameness()
    ensures known { (key : ℕ) (headers : ℕ → Option HeaderState) (port : ℕ) (options other_options : List (Option BufferHeader)) → AreSame options other_options → AreHeadersOf key headers port options → AreHeadersOf key headers port other_options }
    ensures many { (port : ℕ) (options other_options : List (Option BufferHeader)) → AreSame options other_options → length (carried_from port other_options) ≡ length (carried_from port options) }
{}
