//! The longest journal.
use journal::{Entry, Journal};
use std::test::Fail;

#[test]
fn a_journal_takes_100_000_entries(rt: HostRuntime) -> Result<(), Fail> {
    let mut journal = Journal::new(rt.alloc());
    for slot in 0..100_000 {
        let turn = Entry::Turn {
            slot,
            a_on: true,
            b_on: Some(true),
        };
        assert!(rt; journal.push(turn).is_ok(), "{slot}");
    }
    assert_eq!(rt; journal.len(), 100_000);
    Ok(())
}
