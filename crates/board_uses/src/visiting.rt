//! All that a worker asks of a component between two works, in one row.
ghost use Rattle.std.specs.Prelude.{◌≡◌, ℕ, ◌≤◌, [], IfSome};
ghost use Rattle.omx_types.specs.declared.handle.Handle.{Handle};
ghost use Rattle.turnstile.specs.Passes.{IsSamePass};
ghost use Rattle.held_things.specs.Held.{more};
ghost use Rattle.graph_acts.specs.Plain.{sight_of};
ghost use Rattle.graph_acts.specs.Working.{claimed_work};
ghost use Rattle.board.specs.declared.boards.Board.{Board};
ghost use Rattle.board.specs.Boards.{first_of, pass_view, seen_states, headers, clients, works, IsOf};
ghost use Rattle.board.specs.Rows.{acts, replies as told, room_of, place_of, IsRowOf, AreRepliesTo};
ghost use Rattle.board_uses.specs.Visiting.{visit_acts, visit_replies, DoesVisit};

use board::{Act, ActRow, Board, BoardPass, LentClaim, Reply};
use il_machine::Acted;
use note_queues::Client;
use omx_types::{CallError, Handle, OmxError};
use outside_io::{Sink, Source};
use std::sync::Wait;

/// What the acts of a visit answered, which were made one behind the other from the place on.
pub struct Visited<S: Source, K: Sink> {
    pub place: u64,
    pub ran: Result<Acted, OmxError>,
    pub supplied: Result<Acted, CallError>,
    pub released: Result<Acted, OmxError>,
    pub handed_back: Result<Acted, OmxError>,
    pub handed_over: Result<Acted, OmxError>,
    pub claimed: Result<LentClaim<S, K>, OmxError>,
}

/// The row then asks the acts of a visit.
fn ask_all<S: Source, K: Sink, C: Client>(
    board: &Board<S, K, C>,
    pass: &mut BoardPass<S, K, C>,
    row: &mut ActRow<S, K, C>,
    h: Handle,
    port: u32,
)
    requires pass { IsOf board.now pass.old }
    requires row { IsRowOf board.now row.old × (acts row.old ≡ []) × (told row.old ≡ []) }
    requires room { 6 ≤ room_of row.old }
    ensures pass { IsOf board.now pass.new × (pass_view pass.new ≡ pass_view pass.old) × (seen_states pass.new ≡ seen_states pass.old) }
    ensures row { IsRowOf board.now row.new × (room_of row.new ≡ room_of row.old) }
    ensures acts { acts row.new ≡ visit_acts h port }
    ensures replies { told row.new ≡ [] }
{
    board.add(pass, row, Act::RunCommand(h));
    board.add(pass, row, Act::Supply(h, port));
    board.add(pass, row, Act::Release(h, port));
    board.add(pass, row, Act::HandBack(h, port));
    board.add(pass, row, Act::HandOver(h, port));
    board.add(pass, row, Act::Claim(h));
}

/// Takes the replies off the row.
fn take_all<S: Source, K: Sink, C>(row: &mut ActRow<S, K, C>) -> Visited<S, K>
    requires { (h : Handle) × (port : ℕ) × AreRepliesTo (visit_acts h port) (told row.old) }
    ensures place { result.place ≡ place_of row.old }
    ensures replies { (told row.old ≡ visit_replies result) × (told row.new ≡ []) }
    ensures acts { (acts row.new ≡ acts row.old) × (room_of row.new ≡ room_of row.old) }
    ensures of { (b : Board S K C) → IsRowOf b row.old → IsRowOf b row.new }
{
    let (place, ran) = match row.take_reply() {
        Some((place, Reply::RunCommand(ran))) => (place, ran),
        _ => unreachable!(),
    };
    let supplied = match row.take_reply() {
        Some((_, Reply::Supply(supplied))) => supplied,
        _ => unreachable!(),
    };
    let released = match row.take_reply() {
        Some((_, Reply::Release(released))) => released,
        _ => unreachable!(),
    };
    let handed_back = match row.take_reply() {
        Some((_, Reply::HandBack(handed_back))) => handed_back,
        _ => unreachable!(),
    };
    let handed_over = match row.take_reply() {
        Some((_, Reply::HandOver(handed_over))) => handed_over,
        _ => unreachable!(),
    };
    let claimed = match row.take_reply() {
        Some((_, Reply::Claim(claimed))) => claimed,
        _ => unreachable!(),
    };
    Visited {
        place,
        ran,
        supplied,
        released,
        handed_back,
        handed_over,
        claimed,
    }
}

/// Asks in one row all that a worker asks of a component with one port between two works: its oldest command is run, its port gets or loses
/// a header, headers go back and on, and a work is claimed. `None` where no more places are given: the acts that were not made are left in
/// the row, with the replies of the others.
pub fn visit<S: Source, K: Sink, C: Client, R: Wait>(
    rt: &R,
    board: &Board<S, K, C>,
    pass: &mut BoardPass<S, K, C>,
    row: &mut ActRow<S, K, C>,
    h: Handle,
    port: u32,
) -> Option<Visited<S, K>>
    requires pass { IsOf board.now pass.old }
    requires row { IsRowOf board.now row.old × (acts row.old ≡ []) × (told row.old ≡ []) }
    requires room { 6 ≤ room_of row.old }
    ensures pass { IsOf board.now pass.new × IsSamePass (pass_view pass.old) (pass_view pass.new) }
    ensures row { IsRowOf board.now row.new × (room_of row.new ≡ room_of row.old) }
    ensures calls { DoesVisit (sight_of C.Client S.Source K.Sink) C.HEADERS (first_of board.now) h port result row.new pass.old pass.new }
    ensures empty { IfSome result (λ v. (acts row.new ≡ []) × (told row.new ≡ [])) }
    ensures works { IfSome result (λ v. works pass.new ≡ more (claimed_work v.claimed) (works pass.old)) }
    ensures clients { IfSome result (λ v. clients C.progress pass.new ≡ clients C.progress pass.old) }
    ensures headers { IfSome result (λ v. headers pass.new ≡ headers pass.old) }
{
    ask_all(board, pass, row, h, port);
    match board.calls(rt, pass, row) {
        Ok(()) => Some(take_all(row)),
        Err(_out_of_places) => None,
    }
}
