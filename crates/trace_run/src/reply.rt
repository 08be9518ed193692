//! The answer of a line: a plain reply, or an emptied or filled header by its slot.

use act_text::TextReply;

/// What a line is answered. The header of an emptied or filled one is in the slot at the place.
#[derive(Clone, Copy)]
pub enum LineAnswer {
    Plain(TextReply),
    Emptied { place: usize },
    Filled { place: usize },
}
