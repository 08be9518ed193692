//! Parameters and configs: their keys and values, port definitions, buffer suppliers, and the version.

ghost use Rattle.std.specs.Prelude.{◌≡◌};

use crate::Format;

/// The version of the standard that a caller was built for (OpenMAX IL 1.1.2, `OMX_VERSIONTYPE`).
#[derive(Clone, Copy, Debug, PartialEq, Eq)]
pub struct Version {
    pub major: u8,
    pub minor: u8,
    pub revision: u8,
    pub step: u8,
}

impl Version {
    pub const V112: Version = Version {
        major: 1,
        minor: 1,
        revision: 2,
        step: 0,
    };
}

/// Which end of a tunnel makes its headers (OpenMAX IL 1.1.2, `OMX_BUFFERSUPPLIERTYPE`).
#[derive(Clone, Copy, Debug, PartialEq, Eq)]
pub enum Supplier {
    Unspecified,
    Input,
    Output,
}

/// A port's direction, format, count of headers and size of each header in bytes.
#[derive(Clone, Copy, Debug, PartialEq, Eq)]
pub struct PortDefinition {
    pub input: bool,
    pub format: Format,
    pub count: u32,
    pub size: u32,
}

/// The value of a parameter or a config.
#[derive(Clone, Copy, Debug, PartialEq, Eq)]
pub enum Param {
    Port(PortDefinition),
    Supplier(Supplier),
    Priority(u32),
    Gain(u32),
    Weight(u32),
}

/// Names a parameter: 1 port definition, 2 buffer supplier, 3 priority; or a config: 4 gain, 5 weight.
#[derive(Clone, Copy, Debug, PartialEq, Eq)]
pub struct ParamKey {
    pub version: Version,
    pub index: u32,
    pub port: u32,
}
