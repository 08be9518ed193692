//! A header for each port of a component that gave one, and the end of places that have none.

ghost use Rattle.std.specs.Prelude.{◌≡◌, None};
ghost use Rattle.work_landing.specs.Places.{AreFree};

use header_core::Header;

/// A header for each port of a component that gave one.
pub type Places = [Option<Header>; 9];

/// Ends a place that has no header.
fn leave(place: Option<Header>)
    requires { place ≡ None }
{
    match place {
        None => {}
        Some(_header) => unreachable!(),
    }
}

/// Ends places that have no header: none is lost.
pub fn leave_all(places: Places)
    requires { AreFree places }
{
    let [a, b, c, d, e, f, g, h, i] = places;
    leave(a);
    leave(b);
    leave(c);
    leave(d);
    leave(e);
    leave(f);
    leave(g);
    leave(h);
    leave(i);
}
