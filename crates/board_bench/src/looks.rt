//! Looks at a state without a turn, beside plain loads.

ghost use Rattle.std.specs.Prelude.{◌≡◌};
ghost use Rattle.board.specs.Boards.{pass_view, IsOf};

use crate::graph::{end, start};
use crate::shared::{SinkBoard, SinkPass, board_over};
use crate::stopped::{Host, Stopped, elapsed};
use omx_types::Handle;
use std::hint::black_box;
use std::io;
use std::sync::atomic::{AtomicU64, Ordering};
use std::time::Instant;

const LOOKS: u32 = 2_000_000;

/// How often each case is timed.
const TURNS: u32 = 7;

/// The versions that were seen, added up.
fn look_on(board: &SinkBoard, pass: &mut SinkPass, h: Handle) -> u64
    requires { IsOf board.now pass.old }
    ensures { IsOf board.now pass.new × (pass_view pass.new ≡ pass_view pass.old) }
{
    let mut sum: u64 = 0;
    for _ in 0..LOOKS {
        if let Ok((version, _state)) = board.peek_state(pass, h) {
            sum = sum.wrapping_add(version);
        }
    }
    sum
}

/// The nanoseconds of the looks at the first of the components.
fn time_looks<R: Host>(rt: &R) -> Result<u128, Stopped> {
    let (graph, sinks) = start(rt)?;
    let (board, mut root) = board_over(rt, graph)?;
    let began = Instant::now(rt);
    let _sum = black_box(look_on(&board, &mut root, sinks[0]));
    let time = elapsed(rt, began);
    end(rt, board.close(root));
    time
}

/// The nanoseconds of as many loads of a word.
fn time_loads<R: Host>(rt: &R) -> Result<u128, Stopped> {
    let word = AtomicU64::new(1);
    let began = Instant::now(rt)?;
    let mut sum: u64 = 0;
    for _ in 0..LOOKS {
        sum = sum.wrapping_add(word.load(Ordering::SeqCst));
    }
    let _sum = black_box(sum);
    Ok(began.elapsed(rt)?.as_nanos())
}

pub(crate) fn figures<R: Host>(rt: &R) -> io::Result<()> {
    let mut looks = u128::MAX;
    let mut loads = u128::MAX;
    for _ in 0..TURNS {
        match (time_looks(rt), time_loads(rt)) {
            (Ok(p), Ok(l)) => {
                looks = looks.min(p);
                loads = loads.min(l);
            }
            _ => return println!(rt; "looks: memory was wanting, or a call was refused"),
        }
    }
    println!(rt;
        "a load: {} hundredths of a ns, a look at a state {}, {} hundredths of a load",
        loads.saturating_mul(100) / u128::from(LOOKS),
        looks.saturating_mul(100) / u128::from(LOOKS),
        looks.saturating_mul(100) / loads.max(1)
    )
}
