//! The two compandings of ITU-T G.711, by name.

/// A companding of ITU-T G.711: how a sample of 16 bits is coded by 8.
#[derive(Clone, Copy, Debug, PartialEq, Eq)]
pub enum Companding {
    ALaw,
    MuLaw,
}
