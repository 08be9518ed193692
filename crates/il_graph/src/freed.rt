//! What a client gets back when a component is freed: its client object, and its file if it had one.

use audio_parts::PartFile;

/// What comes back with a component that was freed: its client object, and its file, where it had one.
#[derive(Drop)]
pub struct Freed<S, K, C> {
    pub client: C,
    pub file: Option<PartFile<S, K>>,
}
