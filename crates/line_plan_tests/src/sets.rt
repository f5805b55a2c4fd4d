// Sets of locks: what joins them, what they lack, and what a server holds of them.
use frang_base::{LockId, Mode, NoMemory, ServerId};
use lock_sets::LockSet;
use lock_table::LockTable;
use std::process::Abort;
use std::test::Fail;

// A set in which a node is joined both ways.
fn joins(rt: &impl Abort, set: &mut LockSet) -> Result<(), Fail> {
    set.join(LockId::Node(3), Mode::Shared)?;
    assert!(rt; set.lacks(LockId::Node(3), Mode::Sole));
    set.join(LockId::Node(3), Mode::Sole)?;
    set.join(LockId::Node(3), Mode::Shared)?;
    assert!(rt; set.mode(LockId::Node(3)) == Some(Mode::Sole));
    assert!(rt; !set.lacks(LockId::Node(3), Mode::Shared));
    assert!(rt; set.lacks(LockId::Segment(3), Mode::Shared));
    Ok(())
}

#[test]
fn a_lock_that_is_needed_both_ways_is_sole(rt: HostRuntime) -> Result<(), Fail> {
    let mut set = LockSet::new(rt.alloc());
    joins(&rt, &mut set)
}

// The root's lock, two segments and a node, as they come.
const NEEDS: [(LockId, Mode); 4] = [
    (LockId::Node(3), Mode::Sole),
    (LockId::Segment(2), Mode::Sole),
    (LockId::Node(0), Mode::Shared),
    (LockId::Segment(1), Mode::Shared),
];

// In order.
const GROWN: [(LockId, Mode); 4] = [
    (LockId::Segment(1), Mode::Shared),
    (LockId::Segment(2), Mode::Sole),
    (LockId::Node(0), Mode::Shared),
    (LockId::Node(3), Mode::Sole),
];

fn grows(rt: &impl Abort, set: &mut LockSet) -> Result<(), Fail> {
    let grown = set.grown(&NEEDS)?;
    assert!(rt; set.as_slice() == [(LockId::Node(0), Mode::Shared)].as_slice());
    assert!(rt; set.lacks_any(&NEEDS));
    assert!(rt; grown.as_slice() == GROWN.as_slice());
    assert!(rt; !grown.lacks_any(&NEEDS));
    assert!(rt; grown.has(LockId::Segment(2)) && !grown.has(LockId::Segment(3)));
    set.join_all(&NEEDS)?;
    assert!(rt; set.as_slice() == GROWN.as_slice());
    Ok(())
}

#[test]
fn a_set_grows_in_order_beside_the_old(rt: HostRuntime) -> Result<(), Fail> {
    let mut set = LockSet::first(rt.alloc())?;
    grows(&rt, &mut set)?;
    let segments = set.segments(rt.alloc())?;
    assert!(rt; segments.as_slice() == [1, 2].as_slice());
    Ok(())
}

// Server 1 holds both segments, one of them for more than it needs.
fn hold(table: &mut LockTable) -> Result<(), NoMemory> {
    let _ = table.want(ServerId(1), LockId::Segment(1), Mode::Sole)?;
    let _ = table.want(ServerId(1), LockId::Segment(2), Mode::Sole)?;
    let _ = table.want(ServerId(1), LockId::Node(3), Mode::Sole)?;
    Ok(())
}

#[test]
fn the_least_lock_that_is_not_held_is_asked(rt: HostRuntime) -> Result<(), Fail> {
    let mut set = LockSet::new(rt.alloc());
    set.join_all(&NEEDS)?;
    let mut table = LockTable::new(rt.alloc());
    hold(&mut table)?;
    assert!(rt; set.to_ask(&table, ServerId(1)) == Some((LockId::Node(0), Mode::Shared)));
    assert!(rt; set.held(&table, ServerId(1)).len() == 2);
    assert!(rt; set.to_ask(&table, ServerId(2)) == Some((LockId::Segment(1), Mode::Shared)));
    assert!(rt; set.held(&table, ServerId(2)).is_empty());
    let _ = table.want(ServerId(1), LockId::Node(0), Mode::Shared)?;
    assert!(rt; set.to_ask(&table, ServerId(1)).is_none());
    assert!(rt; set.held(&table, ServerId(1)) == GROWN.as_slice());
    Ok(())
}
