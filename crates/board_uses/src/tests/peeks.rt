//! States that are read without a turn.
ghost use Rattle.std.specs.Prelude.{◌≡◌, IfOk};
ghost use Rattle.turnstile.specs.Turns.{rooted};
ghost use Rattle.board.specs.Boards.{first_of, pass_view, IsOf};

use super::asking::{run, send};
use super::client::{Plain, PlainBoard, PlainPass, ended, made};
use board::Board;
use il_machine::Acted;
use omx_types::{Command, Handle, PortSel, State};
use std::alloc::{AllocError, Global};
use std::process::Abort;
use std::test::Fail;

pub const IDLE: Command = Command::StateSet(State::Idle);

/// A board over one gain with all ports disabled.
pub fn gain_on_board(
    rt: &impl Abort,
    alloc: Global,
) -> Result<(PlainBoard, PlainPass, Handle), AllocError>
    ensures { IfOk result (λ t. IsOf t.0 t.1 × (pass_view t.1 ≡ rooted (first_of t.0))) }
{
    let mut graph = Plain::new(alloc, 8)?;
    let gain = made(rt, alloc, &mut graph, "OMX.lab.gain");
    let disable = Command::PortDisable(PortSel::All);
    assert_eq!(rt; graph.send_command(gain, disable), Ok(()));
    assert_eq!(rt; graph.run_command(gain), Ok(Acted::Did));
    match Board::new(alloc, graph) {
        Ok((board, root)) => Ok((board, root, gain)),
        Err(_) => panic!(rt; "no memory"),
    }
}

/// A pass that was split off before the command, and was told nothing since, peeks at what was shown.
#[test]
fn peek_without_being_told(rt: HostRuntime) -> Result<(), Fail> {
    let (board, mut root, gain) = gain_on_board(&rt, rt.alloc())?;
    let mut pass = board.split(&mut root);
    assert_eq!(rt; send(&rt, &board, &mut root, gain, IDLE), 0);
    assert_eq!(rt; run(&rt, &board, &mut root, gain), 1);
    assert_eq!(rt; board.peek_state(&mut pass, gain), Ok((1, State::Idle)));
    board.meet(&mut root, pass);
    let graph = board.close(root);
    ended(&rt, graph);
    Ok(())
}
