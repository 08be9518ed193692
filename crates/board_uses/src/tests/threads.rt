//! Two threads at one board.
ghost use Rattle.std.specs.Prelude.{◌≡◌};
ghost use Rattle.board.specs.Boards.{IsOf};
ghost use Rattle.board_uses.specs.Passing.{HoldsNothing};

use super::asking::{run, send};
use super::client::{PlainBoard, PlainPass, ended};
use super::peeks::{IDLE, gain_on_board};
use omx_types::{Handle, State};
use std::alloc::Global;
use std::process::Abort;
use std::sync::Wait;
use std::test::Fail;
use std::thread;
use std::thread::Threads;

fn bring_to_idle<R: Wait + Abort>(rt: &R, board: &PlainBoard, pass: &mut PlainPass, h: Handle)
    requires { IsOf board.now pass.old × HoldsNothing (λ told. told) pass.old }
    ensures { IsOf board.now pass.new × HoldsNothing (λ told. told) pass.new }
{
    let _sent = send(rt, board, pass, h, IDLE);
    let _ran = run(rt, board, pass, h);
}

fn look(rt: &impl Abort, board: &PlainBoard, pass: &mut PlainPass, h: Handle)
    requires { IsOf board.now pass.old × HoldsNothing (λ told. told) pass.old }
    ensures { IsOf board.now pass.new × HoldsNothing (λ told. told) pass.new }
{
    assert!(rt; board.peek_state(pass, h).is_ok());
}

/// One thread brings a gain to Idle while another one looks at it; the root knows of it once it met both.
fn share<R: Threads + Wait + Abort + Sync>(rt: &R, alloc: Global) -> Result<(), Fail> {
    let (board, mut root, gain) = gain_on_board(rt, alloc)?;
    let mut one = board.split(&mut root);
    let mut two = board.split(&mut root);
    let shared = &board;
    thread::join_mut(
        rt,
        &mut ||
            requires { IsOf shared.now one × HoldsNothing (λ told. told) one }
            ensures { IsOf shared.entry.now one.exit × HoldsNothing (λ told. told) one.exit }
        { bring_to_idle(rt, shared, &mut one, gain) },
        &mut ||
            requires { IsOf shared.now two × HoldsNothing (λ told. told) two }
            ensures { IsOf shared.entry.now two.exit × HoldsNothing (λ told. told) two.exit }
        { look(rt, shared, &mut two, gain) },
    );
    board.meet(&mut root, one);
    board.meet(&mut root, two);
    assert_eq!(rt; board.peek_state(&mut root, gain), Ok((1, State::Idle)));
    ended(rt, board.close(root));
    Ok(())
}

#[test]
fn two_threads_get_on(rt: HostRuntime) -> Result<(), Fail> {
    share(&rt, rt.alloc())
}
