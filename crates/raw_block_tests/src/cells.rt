//! A full block, a cell that is used again, a value that changes, and types of no and of large alignment.
use raw_block::RawBlock;
use std::alloc::AllocError;

/// Puts 1, 2 and 3 into a block of two cells, takes the first value and puts 4: what was handed back, what was taken,
/// and what the second cell holds then.
fn two_cells(block: &mut RawBlock<u8, 2>) -> Option<(u8, u8, u8)> {
    let first = block.put(1).ok()?;
    let second = block.put(2).ok()?;
    let back = block.put(3).err()?;
    if first == second || !block.holds(first) {
        return None;
    }
    let taken = block.take(first);
    if block.holds(first) || block.put(4).is_err() || !block.holds(second) {
        return None;
    }
    Some((back, taken, *block.get(second)))
}

#[test]
fn a_block_of_two_cells(rt: HostRuntime) -> Result<(), AllocError> {
    let mut block: RawBlock<u8, 2> = RawBlock::make(rt.alloc())?;
    assert_eq!(rt; two_cells(&mut block), Some((3, 1, 2)));
    Ok(())
}

/// Puts a value of 16 octets into the only cell and changes it: what is handed back while it is there, and what is
/// taken.
fn one_cell(block: &mut RawBlock<u128, 1>) -> Option<(u128, u128)> {
    let cell = block.put(5).ok()?;
    let back = block.put(6).err()?;
    if !block.holds(cell) {
        return None;
    }
    *block.get_mut(cell) = 1 << 100;
    if !block.holds(cell) {
        return None;
    }
    Some((back, block.take(cell)))
}

#[test]
fn a_block_of_one_cell(rt: HostRuntime) -> Result<(), AllocError> {
    let mut block: RawBlock<u128, 1> = RawBlock::make(rt.alloc())?;
    assert_eq!(rt; one_cell(&mut block), Some((6, 1 << 100)));
    assert_eq!(rt; one_cell(&mut block), Some((6, 1 << 100)));
    Ok(())
}

/// Whether a block of two cells takes two values of no size, and not a third.
fn values_of_no_size(block: &mut RawBlock<(), 2>) -> bool {
    let two = block.put(()).is_ok() && block.put(()).is_ok();
    two && block.put(()).is_err()
}

#[test]
fn a_block_of_values_of_no_size(rt: HostRuntime) -> Result<(), AllocError> {
    let mut block: RawBlock<(), 2> = RawBlock::make(rt.alloc())?;
    assert!(rt; values_of_no_size(&mut block));
    Ok(())
}
