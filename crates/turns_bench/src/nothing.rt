//! A value whose act is empty.

use turnstile::Serve;

/// It answers nothing, to an act that says nothing.
#[derive(Drop)]
pub struct Nothing;

impl Serve for Nothing {
    ghost use Rattle.std.specs.Prelude.{◌≡◌};

    type Act = ();

    type Reply = ();

    ghost legal = { λ first log. Unit {0} };

    ghost reaches = { λ first log value. Unit {0} };

    ghost may = { λ first own act. Unit {0} };

    ghost clear = { λ own. Unit {0} };

    ghost can_serve = { λ value act place. Unit {0} };

    fn serve(&mut self, _act: (), _place: u64) {}

    ghost serves = { λ first value log pass act place due. tt };
}
