//! Calls of a board that answer, and end the test where they answer otherwise.
ghost use Rattle.std.specs.Prelude.{◌≡◌};
ghost use Rattle.graph_acts.specs.Holding.{May};
ghost use Rattle.graph_acts.specs.Plain.{sight_of};
ghost use Rattle.graph_acts.specs.Replying.{IsReplyTo};
ghost use Rattle.board.specs.Boards.{own_calls, headers, clients, works, headers_after, clients_after, works_after, IsOf};
ghost use Rattle.board_uses.specs.Passing.{GoesOn, HoldsAsBefore};

use board::{Act, Board, BoardPass, Reply};
use il_machine::Acted;
use note_queues::Client;
use omx_types::{Command, Handle};
use outside_io::{Sink, Source};
use std::process::Abort;
use std::sync::Wait;

/// The place of the call, and its answer.
fn ask<S: Source, K: Sink, C: Client, R: Wait + Abort>(
    rt: &R,
    board: &Board<S, K, C>,
    pass: &mut BoardPass<S, K, C>,
    act: Act<S, K, C>,
) -> (u64, Reply<S, K, C>)
    requires pass { IsOf board.now pass.old }
    requires may { May (sight_of C.Client S.Source K.Sink) C.HEADERS (own_calls pass.old) act }
    ensures pass { GoesOn board.now pass.old pass.new }
    ensures reply { IsReplyTo act result.1 }
    ensures headers { headers pass.new ≡ headers_after act result.1 (headers pass.old) }
    ensures clients { clients C.progress pass.new ≡ clients_after C.progress act result.1 (clients C.progress pass.old) }
    ensures works { works pass.new ≡ works_after act result.1 (works pass.old) }
{
    match board.call(rt, pass, act) {
        Ok(told) => told,
        Err(_act) => panic!(rt; "no place"),
    }
}

/// Sends the command, and answers the place of the call.
pub fn send<S: Source, K: Sink, C: Client, R: Wait + Abort>(
    rt: &R,
    board: &Board<S, K, C>,
    pass: &mut BoardPass<S, K, C>,
    h: Handle,
    command: Command,
) -> u64
    requires { IsOf board.now pass.old }
    ensures pass { GoesOn board.now pass.old pass.new }
    ensures holds { HoldsAsBefore C.progress pass.old pass.new }
{
    match ask(rt, board, pass, Act::SendCommand(h, command)) {
        (place, Reply::SendCommand(Ok(()))) => place,
        _ => panic!(rt; "not sent"),
    }
}

/// Runs the first command, and answers the place of the call.
pub fn run<S: Source, K: Sink, C: Client, R: Wait + Abort>(
    rt: &R,
    board: &Board<S, K, C>,
    pass: &mut BoardPass<S, K, C>,
    h: Handle,
) -> u64
    requires { IsOf board.now pass.old }
    ensures pass { GoesOn board.now pass.old pass.new }
    ensures holds { HoldsAsBefore C.progress pass.old pass.new }
{
    match ask(rt, board, pass, Act::RunCommand(h)) {
        (place, Reply::RunCommand(Ok(Acted::Did))) => place,
        _ => panic!(rt; "not run"),
    }
}
