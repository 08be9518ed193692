//! The two ends of a link: the component that gives into it has its output there, the one that takes from it its input.

ghost use Rattle.std.specs.Prelude.{◌≡◌};
ghost use Rattle.play_graph.specs.LinkEnds.{at_input, index_by, place_by};

use play_forms::Joint;

/// An end of a link.
#[derive(Clone, Copy)]
pub enum End {
    Output,
    Input,
}

/// Whether it is the input.
pub fn is_input(end: End) -> bool
    ensures { result ≡ at_input end }
{
    matches!(end, End::Input)
}

/// The component at the end of a link, by its place.
pub fn place_at(joint: Joint, end: End) -> u32
    ensures { result ≡ place_by end joint }
{
    match end {
        End::Output => joint.giver,
        End::Input => joint.taker,
    }
}

/// Its port there.
pub fn index_at(joint: Joint, end: End) -> u32
    ensures { result ≡ index_by end joint }
{
    match end {
        End::Output => joint.output,
        End::Input => joint.input,
    }
}
