//! What the parts of components do with whole streams, and the text of a WAV file: definitions that stand in
//! `specs/`, below the machine and below the parts themselves.
#![tactic(auto)]
