//! A part at its place in the graph, with room for the headers of its work.

ghost use Rattle.std.specs.Prelude.{◌≡◌, IfOk, IfErr};
ghost use Rattle.work_landing.specs.Places.{AreFree};

use std::alloc::Global;
use std::marker::Model;
use work_landing::{Places, leave_all};

/// A part, and a place for the header of each port that gives one to its work.
pub struct Desk<P> {
    pub part: P,
    pub headers: Places,
}

/// A part that is at its place, so that no header is with it. Its memory is taken once, when it is made: it goes out as a work and comes
/// back as it stands.
pub struct Seat<P> {
    pub desk: Box<Desk<P>>,
}

impl<P> Model for Seat<P> {
    ghost use Rattle.work_landing.specs.Places.{AreFree};

    ghost Value = { P };

    ghost view = { λ s. s.desk.value.part };

    ghost invariant = { λ s. AreFree s.desk.value.headers };
}

/// Takes the part off, with which no header is.
fn part_of<P>(desk: Desk<P>) -> P
    requires { AreFree desk.headers }
    ensures { result ≡ desk.part }
{
    let Desk { part, headers } = desk;
    leave_all(headers);
    part
}

impl<P> Seat<P> {
    /// A seat for the part, or the part where memory is wanted.
    pub fn new(alloc: Global, part: P) -> Result<Seat<P>, P>
        ensures ok { IfOk result (λ seat. seat ≡ part) }
        ensures err { IfErr result (λ back. back ≡ part) }
    {
        let desk = Desk {
            part,
            headers: [None, None, None, None, None, None, None, None, None],
        };
        match Box::new(alloc, desk) {
            Ok(desk) => Ok(Seat { desk }),
            Err(refused) => Err(part_of(refused.value)),
        }
    }

    /// The part, and its seat ends.
    pub fn into_part(self) -> P
        ensures { result ≡ self }
    {
        let Seat { desk } = self;
        part_of(Box::into_inner(desk))
    }
}
