//! A region of two blocks.

ghost use Rattle.block_region.specs.Regions.{IsTaken};

use block_region::{Block, Region};
use std::process::Abort;
use std::test::Fail;

fn taken(rt: &impl Abort, region: &mut Region) -> Block
    ensures { IsTaken region.old result region.new }
{
    match region.take() {
        Some(block) => block,
        None => panic!(rt; "none is free"),
    }
}

#[test]
fn two_blocks(rt: HostRuntime) -> Result<(), Fail> {
    let mut region = Region::new(rt.alloc(), 2, 16)?;
    let first = taken(&rt, &mut region);
    let second = taken(&rt, &mut region);
    match region.take() {
        None => {}
        Some(_block) => panic!(rt; "three blocks"),
    }
    region.give(first);
    let again = taken(&rt, &mut region);
    assert_eq!(rt; again.bytes().len(), 16);
    region.give(second);
    region.give(again);
    region.close();
    Ok(())
}
