//! What a block drops: each value that it holds at its end, once, and none that was taken.
use raw_block::RawBlock;
use std::alloc::{AllocError, Global};
use std::cell::Cell;

/// A value that counts how often it is dropped.
struct Counted<'a> {
    count: &'a Cell<u32>,
}

impl<'a> Drop for Counted<'a> {
    fn drop(self) {
        let Self { count } = self;
        count.set(count.get().wrapping_add(1));
    }
}

/// Puts two values into a block of three cells and takes the first. The other is dropped with the block.
fn take_one<'a>(
    alloc: Global,
    first: &'a Cell<u32>,
    second: &'a Cell<u32>,
) -> Result<Option<Counted<'a>>, AllocError> {
    let mut block: RawBlock<Counted<'a>, 3> = RawBlock::make(alloc)?;
    let Ok(cell) = block.put(Counted { count: first }) else {
        return Ok(None);
    };
    let Ok(_other) = block.put(Counted { count: second }) else {
        return Ok(None);
    };
    if !block.holds(cell) {
        return Ok(None);
    }
    Ok(Some(block.take(cell)))
}

#[test]
fn held_values_are_dropped_once(rt: HostRuntime) -> Result<(), AllocError> {
    let first = Cell::new(0);
    let second = Cell::new(0);
    let taken = take_one(rt.alloc(), &first, &second)?;
    assert!(rt; taken.is_some());
    assert_eq!(rt; (first.get(), second.get()), (0, 1));
    drop(taken);
    assert_eq!(rt; (first.get(), second.get()), (1, 1));
    Ok(())
}
