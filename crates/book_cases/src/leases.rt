//! Worked tables.
use leasebook::{Entry, LeaseFate, LeaseTable};
use std::test::Fail;

#[test]
fn a_lost_lease_leaves_grunt_and_node_free(rt: HostRuntime) -> Result<(), Fail> {
    let mut table = LeaseTable::new(rt.alloc(), 2, 5, 3, 4)?;
    assert_eq!(rt; table.grant(2, 3), 0);
    assert_eq!(rt; table.of_grunt(2), Some(0));
    assert_eq!(rt; table.of_node(3), Some(0));
    assert_eq!(rt; table.held(), 1);
    table.end(0, LeaseFate::Lost);
    assert_eq!(rt; table.of_grunt(2), None);
    assert_eq!(rt; table.of_node(3), None);
    assert_eq!(rt; table.lost(), 1);
    assert_eq!(rt; table.held(), 0);
    Ok(())
}

#[test]
fn the_log_lists_what_was_done(rt: HostRuntime) -> Result<(), Fail> {
    let mut table = LeaseTable::new(rt.alloc(), 2, 5, 3, 4)?;
    let lease = table.grant(1, 0);
    table.take(0, true);
    table.end(lease, LeaseFate::Split);
    let next = table.grant(1, 2);
    assert_eq!(rt; next, 1);
    assert_eq!(rt; table.node_of(next), 2);
    assert!(rt; !table.lease(0).is_held());
    let log = [
        Entry::Grant(1, 0),
        Entry::Take(0, true),
        Entry::End(0, LeaseFate::Split),
        Entry::Grant(1, 2),
    ];
    assert!(rt; table.log() == log.as_slice());
    assert_eq!(rt; table.grants(), 2);
    assert_eq!(rt; table.lost(), 0);
    assert_eq!(rt; table.leases().len(), 2);
    Ok(())
}

#[test]
fn numbers_past_the_room_hold_nothing(rt: HostRuntime) -> Result<(), Fail> {
    let table = LeaseTable::new(rt.alloc(), 1, 1, 2, 2)?;
    assert_eq!(rt; table.of_grunt(2), None);
    assert_eq!(rt; table.of_node(u32::MAX), None);
    Ok(())
}
