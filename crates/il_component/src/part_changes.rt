//! What a component's part is set back to.

ghost use Rattle.std.specs.Prelude.{◌≡◌, false, map};
ghost use Rattle.il_machine.specs.Kinds.{is_source};

use omx_types::Kind;

/// Whether the kind reads a file.
pub fn is_source(kind: Kind) -> bool
    ensures { result ≡ is_source kind }
{
    matches!(kind, Kind::Source | Kind::Late)
}

/// Clears each flag.
pub fn clear(flags: &mut [bool])
    ensures { flags.new ≡ map (λ flag. false) flags.old }
{
    for flag in flags.iter_mut() {
        *flag = false;
    }
}
