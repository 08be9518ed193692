//! A freed handle whose slot another component has, and parameters that a component doesn't have.

use il_graph::{
    EmptyFile, Format, Graph, Handle, OmxError, Param, ParamKey, PartFile, PortDefinition,
    Progress, ProgressClient, State, Version,
};
use std::alloc::Global;
use std::process::Abort;
use std::test::Fail;

/// A graph whose files have no bytes.
type Filed = Graph<EmptyFile<u8>, EmptyFile<u8>, ProgressClient>;

/// The definition of the first port.
const DEFINITION: ParamKey = ParamKey {
    version: Version::V112,
    index: 1,
    port: 0,
};

const FACTOR: ParamKey = ParamKey {
    index: 4,
    ..DEFINITION
};

const NOTHING_TOLD: Progress = Progress {
    state: None,
    eos: false,
    error: None,
    settings: None,
    port: None,
};

fn gain(rt: &impl Abort, alloc: Global, graph: &mut Filed) -> Handle {
    match graph.get_handle(alloc, "OMX.lab.gain", ProgressClient::new()) {
        Ok(h) => h,
        Err(_) => panic!(rt; "refused"),
    }
}

/// Frees the last component, and ends the graph.
fn ended(rt: &impl Abort, mut graph: Filed, last: Handle) {
    assert!(rt; graph.free_handle(last).is_ok());
    if graph.is_all_in() {
        graph.close();
    } else {
        panic!(rt; "something is out");
    }
}

/// The file comes back.
fn refuses_file(rt: &impl Abort, graph: &mut Filed, h: Handle) {
    let file = PartFile::To {
        snk: EmptyFile::new(7u8),
        frames: 3,
    };
    match graph.attach(h, file) {
        Ok(()) => panic!(rt; "attached"),
        Err((error, PartFile::To { snk: _, frames })) => {
            assert_eq!(rt; (error, frames), (OmxError::InvalidComponent, 3));
        }
        Err(
            (
                _,
                PartFile::From {
                    src: _,
                    format: _,
                    frames: _,
                },
            ),
        ) => panic!(rt; "another file"),
    }
}

#[test]
fn stale_handle(rt: HostRuntime) -> Result<(), Fail> {
    let alloc = rt.alloc();
    let mut graph = Filed::new(alloc, 8)?;
    let stale = gain(&rt, alloc, &mut graph);
    assert!(rt; graph.free_handle(stale).is_ok());
    let other = gain(&rt, alloc, &mut graph);
    assert_eq!(rt; other.slot, stale.slot);

    refuses_file(&rt, &mut graph, stale);
    let gone = OmxError::InvalidComponent;
    assert_eq!(rt; graph.get_parameter(stale, DEFINITION), Err(gone));
    assert_eq!(rt; graph.get_config(stale, FACTOR), Err(gone));
    assert_eq!(rt; graph.progress(stale), Err(gone));

    assert_eq!(rt; graph.get_config(other, FACTOR), Ok(Param::Gain(4096)));
    assert_eq!(rt; graph.progress(other), Ok(Some(NOTHING_TOLD)));
    ended(&rt, graph, other);
    Ok(())
}

#[test]
fn parameters(rt: HostRuntime) -> Result<(), Fail> {
    let alloc = rt.alloc();
    let mut graph = Filed::new(alloc, 8)?;
    let h = gain(&rt, alloc, &mut graph);
    let older = Version {
        revision: 1,
        ..Version::V112
    };
    for (key, refusal) in [
        (
            ParamKey {
                version: older,
                ..DEFINITION
            },
            OmxError::VersionMismatch,
        ),
        (
            ParamKey {
                index: 9,
                ..DEFINITION
            },
            OmxError::UnsupportedIndex,
        ),
        (
            ParamKey {
                port: 4,
                ..DEFINITION
            },
            OmxError::BadPortIndex,
        ),
    ] {
        assert_eq!(rt; graph.get_parameter(h, key), Err(refusal));
    }

    let definition = PortDefinition {
        input: true,
        format: Format::Pcm {
            rate: 8000,
            channels: 1,
        },
        count: 2,
        size: 4096,
    };
    let alaw = Format::Alaw {
        rate: 8000,
        channels: 1,
    };
    assert_eq!(rt;
        graph.get_parameter(h, DEFINITION),
        Ok(Param::Port(definition))
    );
    for (value, refusal) in [
        (
            PortDefinition {
                count: 0,
                ..definition
            },
            OmxError::BadParameter,
        ),
        (
            PortDefinition {
                format: alaw,
                ..definition
            },
            OmxError::UnsupportedSetting,
        ),
    ] {
        assert_eq!(rt;
            graph.set_parameter(h, DEFINITION, Param::Port(value)),
            Err(refusal)
        );
    }
    assert_eq!(rt;
        graph.get_parameter(h, DEFINITION),
        Ok(Param::Port(definition))
    );
    assert_eq!(rt; graph.get_state(h), Ok(State::Loaded));
    ended(&rt, graph, h);
    Ok(())
}
