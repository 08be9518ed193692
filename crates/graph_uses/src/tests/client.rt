//! What the whole client's object was told in the end.

use crate::deliver;
use il_machine::Progress;
use omx_types::State;

#[test]
fn samples_delivered(rt: HostRuntime) {
    let progress = Progress {
        state: Some(State::Loaded),
        eos: true,
        error: None,
        settings: None,
        port: None,
    };
    assert_eq!(rt; deliver(&rt, rt.alloc(), &[1, 0, 255, 255]), Ok(progress));
}
