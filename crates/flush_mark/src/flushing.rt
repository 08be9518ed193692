//! The end of a flush: whether it is due, and the reset of the headers at home.

ghost use Rattle.std.specs.Prelude.{◌≡◌, ◌&&◌, not, is_some, true, false};
ghost use Rattle.il_machine.specs.declared.port.Port.{Port};
ghost use Rattle.il_machine.specs.World.{Component};
ghost use Rattle.il_machine.specs.Headers.{input_reset, output_reset};
ghost use Rattle.il_machine.specs.Due.{is_flush_due, reset_port};
ghost use Rattle.port_stock.specs.Kept.{stocked};
ghost use Rattle.port_stock.specs.Conditions.{IsPort};
ghost use Rattle.flush_mark.specs.Flushing.{is_flushed};
ghost use Rattle.flush_mark.specs.Leading.{Leads};

use il_machine::{Port, PortKey, Spot};
use port_stock::Stock;
use tunnel_rules::is_supplier;

/// Whether the port has no header in its lists but those that are at home there, and no work of its component is out: then the end of
/// its flush is due.
pub fn flush_settled(stock: &Stock, port: PortKey, work_out: bool) -> bool
    requires { IsPort port (stocked stock.now) }
    ensures settled { result ≡ (is_flushed (stocked stock.now).headers port && not work_out) }
    ensures due { (c : Component) (p : Port) → p.key ≡ port → is_some c.work ≡ work_out →
        is_flush_due (stocked stock.now).headers c p ≡ (p.state.flushing && result) }
{
    stock.foreign(port) == 0 && !work_out
}

/// The headers of `todo` go in order to the back of `done`, and all are cleared.
fn todo_to_done(stock: &mut Stock, key: PortKey)
    requires { IsPort key (stocked stock.old) }
    ensures { Leads (input_reset key) (stocked stock.old) (stocked stock.new) }
{
    stock.clear_done(key);
    while let Some(mut header) = stock.pull_todo(key) {
        stock.law_of_owners();
        header.clear();
        stock.push_header(key, header, Spot::DoneBack);
    }
}

/// The headers of `done` go in order to the back of `todo`, and all are cleared.
fn done_to_todo(stock: &mut Stock, key: PortKey)
    requires { IsPort key (stocked stock.old) }
    ensures { Leads (output_reset key) (stocked stock.old) (stocked stock.new) }
{
    stock.clear_todo(key);
    while let Some(mut sent) = stock.pull_done(key) {
        stock.law_of_owners();
        sent.clear();
        stock.push_header(key, sent, Spot::TodoBack);
    }
}

/// Resets the headers in the lists of the port, where it supplies its tunnel. By the time that a flush ends or Idle is reached only
/// those at home are there, which the call doesn't ask.
pub fn reset_home(stock: &mut Stock, port: Port)
    requires { IsPort port.key (stocked stock.old) }
    ensures { Leads (reset_port port) (stocked stock.old) (stocked stock.new) }
{
    if !is_supplier(port) {
        return;
    }
    if port.setting.definition.input {
        todo_to_done(stock, port.key);
    } else {
        done_to_todo(stock, port.key);
    }
}
