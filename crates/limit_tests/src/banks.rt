//! Pools and banks with the most places.
use acl_banks::{Piece, RxBank, TxBank};
use arrayvec::ArrayVec;
use cell_pool::CellPool;
use std::alloc::AllocError;
use std::process::Abort;
use std::test::Fail;

#[test]
fn a_pool_of_64_cells_takes_64_values(rt: HostRuntime) -> Result<(), Fail> {
    let mut pool: CellPool<u8, 64> = CellPool::make(rt.alloc())?;
    for value in 0..64 {
        assert!(rt; pool.put(value).is_ok(), "{value}");
    }
    assert!(rt; pool.put(64).is_err());
    assert_eq!(rt; pool.held(), 64);
    Ok(())
}

#[test]
fn a_bank_of_255_buffers_takes_255_packets(rt: HostRuntime) -> Result<(), Fail> {
    let mut bank: TxBank<255> = TxBank::make(rt.alloc())?;
    for packet in 0..255u8 {
        assert!(rt; bank.offer(1, true, &[packet]).is_ok(), "{packet}");
    }
    assert!(rt; bank.offer(1, true, &[255]).is_err());
    Ok(())
}

/// A bank of 255 places keeps this piece 255 times, and not once more.
fn fill(rt: &impl Abort, bank: &mut RxBank<255>, piece: &Piece) {
    for place in 0..255u8 {
        assert!(rt; bank.keep(1, piece).is_ok(), "{place}");
    }
    assert!(rt; bank.keep(1, piece).is_err());
    assert!(rt; !bank.room());
}

#[test]
fn a_bank_of_255_places_takes_255_pieces(rt: HostRuntime) -> Result<(), AllocError> {
    let mut bank: RxBank<255> = RxBank::make(rt.alloc())?;
    let piece = Piece {
        start: true,
        body: ArrayVec::new(),
    };
    fill(&rt, &mut bank, &piece);
    Ok(())
}
