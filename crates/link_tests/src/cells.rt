//! Each call once, a pool of one cell, and a table of two places.
use crate::scripts::check;
use cell_pool::CellPool;
use cell_table::CellTable;
use std::alloc::{AllocError, Global};
use test_words::{Call, put_number};

/// Makes the calls on a new pool that have this name.
pub(crate) fn take(call: Call<'_>, told: &mut String) -> Result<(), AllocError> {
    match call.name {
        "fill" => fill(told),
        "use_again" => use_again(told),
        "change" => change(told),
        "place" => place(told),
        _ => told.push_str(" which call?"),
    }
}

/// Writes the value that is found.
fn put_found(told: &mut String, found: Option<u8>) -> Result<(), AllocError> {
    match found {
        None => told.push_str(" none"),
        Some(value) => put_number(told, u64::from(value)),
    }
}

/// Writes what a full pool hands back, and how many of its cells are taken.
fn fill(told: &mut String) -> Result<(), AllocError> {
    let (found, held) = filled(*told.allocator())?;
    put_found(told, found)?;
    put_number(told, held as u64)
}

/// What a pool of one cell hands back when it is full, and how many cells are taken then.
fn filled(alloc: Global) -> Result<(Option<u8>, usize), AllocError> {
    let mut pool: CellPool<u8, 1> = CellPool::make(alloc)?;
    let found = handed_back(&mut pool);
    Ok((found, pool.held()))
}

/// What was in a cell that is used again.
fn use_again(told: &mut String) -> Result<(), AllocError> {
    let mut pool: CellPool<u8, 1> = CellPool::make(*told.allocator())?;
    put_found(told, taken(&mut pool))
}

/// What is in a cell whose value changes.
fn change(told: &mut String) -> Result<(), AllocError> {
    let mut pool: CellPool<u8, 2> = CellPool::make(*told.allocator())?;
    put_found(told, changed(&mut pool))
}

/// Writes what is taken out of a place, and whether a value is there then.
fn place(told: &mut String) -> Result<(), AllocError> {
    let (found, stays) = placed(*told.allocator())?;
    put_found(told, found)?;
    put_number(told, u64::from(stays))
}

/// Puts 2 into the second place of a table, changes it to 7 and takes it: what was taken, and
/// whether a value is in a place then.
fn placed(alloc: Global) -> Result<(Option<u8>, bool), AllocError> {
    let mut table: CellTable<u8, 2> = CellTable::make(alloc)?;
    table.put(1, 2);
    if table.holds(0) || !table.holds(1) {
        return Ok((None, true));
    }
    *table.get_mut(1) = 7;
    if !table.holds(1) || *table.get(1) != 7 {
        return Ok((None, true));
    }
    let found = table.take(1);
    Ok((Some(found), table.holds(0) || table.holds(1)))
}

/// Puts 7 into a pool of one cell twice: what the second call hands back.
fn handed_back(pool: &mut CellPool<u8, 1>) -> Option<u8> {
    if pool.put(7).is_err() {
        return None;
    }
    pool.put(7).err()
}

/// Puts 1 into a cell, takes it, and puts 4 there: what was taken.
fn taken(pool: &mut CellPool<u8, 1>) -> Option<u8> {
    let cell = pool.put(1).ok()?;
    if !pool.holds(cell) {
        return None;
    }
    let value = pool.take(cell);
    if pool.holds(cell) || pool.put(4).is_err() {
        return None;
    }
    Some(value)
}

/// Puts 2 into a cell and changes it to 7: what is there then.
fn changed(pool: &mut CellPool<u8, 2>) -> Option<u8> {
    let cell = pool.put(2).ok()?;
    if !pool.holds(cell) {
        return None;
    }
    *pool.get_mut(cell) = 7;
    if !pool.holds(cell) {
        return None;
    }
    Some(*pool.get(cell))
}

/// A full pool hands the value back and holds one; a cell is used again; a value changes in its
/// cell; and one changes in its place and is taken.
const CELLS: &str = "\
cell fill = 7 1
cell use_again = 1
cell change = 7
cell place = 7 0
";

#[test]
fn cells_hold_values(rt: HostRuntime) -> Result<(), AllocError> {
    check(&rt, rt.alloc(), CELLS)
}
