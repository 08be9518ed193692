//! What must hold of settings, stated on functions that do nothing.

ghost use Rattle.std.specs.Prelude.{◌≡◌, Bool, Some, None, Ok, true};
ghost use Rattle.omx_types.specs.declared.param.Param.{Param as Value};
ghost use Rattle.omx_types.specs.declared.param.ParamKey.{ParamKey as Key};
ghost use Rattle.il_machine.specs.Settings.{Settings, IsWhole, set_refusal, changed_by, got, is_apart};

/// A get after a set that isn't refused gives the value that was set.
pub fn law_of_get_after_set()
    ensures { (settings : Settings) (key : Key) (config : Bool) (value : Value) (free : Bool) → IsWhole settings → set_refusal settings key config value free ≡ None → got (changed_by key.port value settings) key config ≡ Ok value }
{}

/// A set that isn't refused leaves every other value as it was.
pub fn law_of_all_else()
    ensures { (settings : Settings) (key other : Key) (config others : Bool) (value : Value) (free : Bool) → IsWhole settings → set_refusal settings key config value free ≡ None → is_apart key other ≡ true → got (changed_by key.port value settings) other others ≡ got settings other others }
{}
