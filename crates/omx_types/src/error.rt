//! Errors of the integration layer, their numbers and names, and why a call that may want memory is refused.

ghost use Rattle.std.specs.Prelude.{◌≡◌};

use std::alloc::AllocError;
use std::{error, fmt};
use thiserror::Error;

/// The errors of the integration layer (OpenMAX IL 1.1.2, `OMX_ERRORTYPE`), those that this core answers or tells.
#[derive(Clone, Copy, Debug, PartialEq, Eq)]
pub enum OmxError {
    InsufficientResources,
    InvalidComponentName,
    ComponentNotFound,
    InvalidComponent,
    BadParameter,
    Hardware,
    InvalidState,
    StreamCorrupt,
    PortsNotCompatible,
    ResourcesLost,
    VersionMismatch,
    NotReady,
    SameState,
    ResourcesPreempted,
    IncorrectStateTransition,
    IncorrectStateOperation,
    UnsupportedSetting,
    UnsupportedIndex,
    BadPortIndex,
    PortUnpopulated,
}

impl OmxError {
    ghost use Rattle.omx_types.specs.Numbers.{error_number};
    ghost use Rattle.omx_types.specs.Names.{error_name};

    /// The number that the standard gives the error.
    pub fn number(self) -> u32
        ensures { result ≡ error_number self }
    {
        match self {
            OmxError::InsufficientResources => 0x8000_1000,
            OmxError::InvalidComponentName => 0x8000_1002,
            OmxError::ComponentNotFound => 0x8000_1003,
            OmxError::InvalidComponent => 0x8000_1004,
            OmxError::BadParameter => 0x8000_1005,
            OmxError::Hardware => 0x8000_1009,
            OmxError::InvalidState => 0x8000_100A,
            OmxError::StreamCorrupt => 0x8000_100B,
            OmxError::PortsNotCompatible => 0x8000_100C,
            OmxError::ResourcesLost => 0x8000_100D,
            OmxError::VersionMismatch => 0x8000_100F,
            OmxError::NotReady => 0x8000_1010,
            OmxError::SameState => 0x8000_1012,
            OmxError::ResourcesPreempted => 0x8000_1013,
            OmxError::IncorrectStateTransition => 0x8000_1017,
            OmxError::IncorrectStateOperation => 0x8000_1018,
            OmxError::UnsupportedSetting => 0x8000_1019,
            OmxError::UnsupportedIndex => 0x8000_101A,
            OmxError::BadPortIndex => 0x8000_101B,
            OmxError::PortUnpopulated => 0x8000_101C,
        }
    }

    /// The standard's name of the error, without its prefix.
    pub fn name(self) -> &'static str
        ensures { result.now ≡ error_name self }
    {
        match self {
            OmxError::InsufficientResources => "InsufficientResources",
            OmxError::InvalidComponentName => "InvalidComponentName",
            OmxError::ComponentNotFound => "ComponentNotFound",
            OmxError::InvalidComponent => "InvalidComponent",
            OmxError::BadParameter => "BadParameter",
            OmxError::Hardware => "Hardware",
            OmxError::InvalidState => "InvalidState",
            OmxError::StreamCorrupt => "StreamCorrupt",
            OmxError::PortsNotCompatible => "PortsNotCompatible",
            OmxError::ResourcesLost => "ResourcesLost",
            OmxError::VersionMismatch => "VersionMismatch",
            OmxError::NotReady => "NotReady",
            OmxError::SameState => "SameState",
            OmxError::ResourcesPreempted => "ResourcesPreempted",
            OmxError::IncorrectStateTransition => "IncorrectStateTransition",
            OmxError::IncorrectStateOperation => "IncorrectStateOperation",
            OmxError::UnsupportedSetting => "UnsupportedSetting",
            OmxError::UnsupportedIndex => "UnsupportedIndex",
            OmxError::BadPortIndex => "BadPortIndex",
            OmxError::PortUnpopulated => "PortUnpopulated",
        }
    }
}

impl fmt::Display for OmxError {
    fn fmt<W: fmt::Write>(&self, f: &mut fmt::Formatter<W>) -> fmt::Result {
        f.write_str(self.name())
    }
}

impl error::Error for OmxError {}

/// Why a call that may want memory was refused.
#[derive(Clone, Copy, Debug, PartialEq, Eq, Error)]
pub enum CallError {
    #[error(transparent)]
    Omx(OmxError),
    #[error("out of memory")]
    OutOfMemory,
}

impl From<OmxError> for CallError {
    ghost use Rattle.omx_types.specs.declared.error.CallError.TheVariants.{Omx};

    ghost from_gives = { λ e c. c ≡ Omx e };

    fn from(error: OmxError) -> CallError {
        CallError::Omx(error)
    }
}

impl From<AllocError> for CallError {
    ghost use Rattle.omx_types.specs.declared.error.CallError.TheVariants.{OutOfMemory};

    ghost from_gives = { λ _ c. c ≡ OutOfMemory };

    fn from(_error: AllocError) -> CallError {
        CallError::OutOfMemory
    }
}
