//! A tunnel between an output and an input is set up or dropped, with its reply.

ghost use Rattle.std.specs.Prelude.{◌≡◌, List};
ghost use Rattle.il_machine.specs.Acts as acts;
ghost use Rattle.il_machine.specs.Whole.{Steps};
ghost use Rattle.trace_run.specs.declared.names.NamedComponent.{NamedComponent as Named};
ghost use Rattle.trace_run.specs.Standing.{graph_kept, Replied};
ghost use Rattle.trace_run.specs.Replying.{is_input_end};

use crate::acts::replies::plain_reply;
use crate::client::TraceGraph;
use act_text::TextReply;
use omx_types::{PortId, Supplier};

fn is_input_end(supplier: Supplier) -> bool
    ensures { result ≡ is_input_end supplier }
{
    match supplier {
        Supplier::Input => true,
        Supplier::Output => false,
        Supplier::Unspecified => false,
    }
}

/// Sets the tunnel up, and answers which end supplies it.
pub fn tunnel(graph: &mut TraceGraph, output: PortId, input: PortId) -> TextReply
    ensures { (components : List Named) → Steps (graph_kept graph.old) (graph_kept graph.new) (λ w v. Replied components (acts.SetupTunnel output input) result w v) }
{
    match graph.setup_tunnel(output, input) {
        Ok(supplier) => TextReply::Supplier {
            input: is_input_end(supplier),
        },
        Err(error) => TextReply::Error(error),
    }
}

/// Drops the tunnel of the two ports.
pub fn drop_tunnel(graph: &mut TraceGraph, output: PortId, input: PortId) -> TextReply
    ensures { (components : List Named) → Steps (graph_kept graph.old) (graph_kept graph.new) (λ w v. Replied components (acts.DropTunnel output input) result w v) }
{
    plain_reply(graph.drop_tunnel(output, input))
}
