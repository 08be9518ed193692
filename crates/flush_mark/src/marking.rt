//! A waiting mark goes to a header.

ghost use Rattle.std.specs.Prelude.{◌≡◌, not, Some};
ghost use Rattle.il_machine.specs.Lists.{is_empty};
ghost use Rattle.il_machine.specs.Due.{first_marked};
ghost use Rattle.stock_laws.specs.Changes.{marked_first};
ghost use Rattle.port_stock.specs.Kept.{stocked};
ghost use Rattle.port_stock.specs.Conditions.{IsPort};
ghost use Rattle.flush_mark.specs.Leading.{Leads};

use il_machine::{Mark, PortKey};
use port_stock::Stock;

/// Puts the mark on the first header of `todo` without one, and answers whether there was one.
pub fn attach_mark(stock: &mut Stock, port: PortKey, mark: Mark) -> bool
    requires { IsPort port (stocked stock.old) }
    ensures some { result ≡ not (is_empty ((stocked stock.old).headers.unmarked port)) }
    ensures stock { stocked stock.new ≡ marked_first port mark (stocked stock.old) }
    ensures leads { Leads (first_marked ((stocked stock.old).headers.unmarked port) (Some mark)) (stocked stock.old) (stocked stock.new) }
{
    stock.mark_first(port, mark)
}
