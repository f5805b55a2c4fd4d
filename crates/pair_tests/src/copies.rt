// Puts, gets, says and refillings over two copies.
ghost use Rattle.std.specs.Prelude.{◌≡◌, [], IfOk};

use crate::short_of_memory::ShortOutside;
use frang_base::{Sector, ServerId};
use frang_outside::{FaultyOutside, MemOutside, Outside, Put, PutFault, SayFault, Taken};
use petal_pair::{Pair, RefillFault};
use std::alloc::{AllocError, Global};
use std::test::Fail;

// A sector of an inode.
const INODE: Sector = Sector(10737418240);

// A put of server 1 that may come until tick 20, at tick 1.
fn put_of(sector: Sector, byte: u8) -> Put {
    Put {
        server: ServerId(1),
        behalf: ServerId(1),
        stamp: 20,
        now: 1,
        sector,
        bytes: [byte; 512],
    }
}

// An outside at which the gets, the puts and the says of these ordinals fail.
fn failing(alloc: Global, get: u64, put: u64, say: u64) -> Result<FaultyOutside, AllocError>
    ensures { IfOk result (λ out. out.acts ≡ []) }
{
    Ok(FaultyOutside::new(
        alloc,
        vec![in alloc; get]?,
        vec![in alloc; put]?,
        vec![in alloc; say]?,
    ))
}

const WRITTEN: Result<Taken, PutFault> = Ok(Taken::Written);

const FAILED: Result<Taken, PutFault> = Err(PutFault::Failed);

// The first copy's put 2 fails: it goes out, the second goes on, and the refilling brings the first back.
#[test]
fn a_failed_put_is_refilled(rt: HostRuntime) -> Result<(), Fail> {
    let alloc = rt.alloc();
    let mut pair = Pair::new(alloc, failing(alloc, 0, 2, 0)?, MemOutside::new(alloc));
    assert!(rt; pair.put(&put_of(Sector(0), 1)) == WRITTEN);
    assert!(rt; pair.out() == None);
    assert!(rt; pair.put(&put_of(INODE, 2)) == WRITTEN);
    assert!(rt; pair.out() == Some(0));
    assert!(rt; pair.get(ServerId(1), INODE) == Ok([2; 512]));
    if pair.out().is_some() {
        assert!(rt; pair.refill() == Ok(()));
    }
    assert!(rt; pair.out() == None);
    let (mut first, mut second) = pair.parts();
    assert!(rt; first.get(ServerId(1), INODE) == Ok([2; 512]));
    assert!(rt; second.get(ServerId(1), INODE) == Ok([2; 512]));
    Ok(())
}

// Both copies' put 1 fails: the first goes out, and the second stays.
#[test]
fn a_put_that_fails_in_both_fails(rt: HostRuntime) -> Result<(), Fail> {
    let alloc = rt.alloc();
    let mut pair = Pair::new(alloc, failing(alloc, 0, 1, 0)?, failing(alloc, 0, 1, 0)?);
    assert!(rt; pair.put(&put_of(Sector(0), 1)) == FAILED);
    assert!(rt; pair.out() == Some(0));
    let (_, _) = pair.parts();
    Ok(())
}

// The first copy's get 1 fails, and then the second's: the first goes out, and is refilled with nothing.
#[test]
fn a_failed_get_asks_the_other(rt: HostRuntime) -> Result<(), Fail> {
    let alloc = rt.alloc();
    let mut pair = Pair::new(alloc, failing(alloc, 1, 0, 0)?, failing(alloc, 2, 0, 0)?);
    assert!(rt; pair.put(&put_of(INODE, 7)) == WRITTEN);
    assert!(rt; pair.get(ServerId(1), INODE) == Ok([7; 512]));
    assert!(rt; pair.out() == Some(0));
    assert!(rt; pair.get(ServerId(1), INODE).is_err());
    assert!(rt; pair.out() == Some(0));
    if pair.out().is_some() {
        assert!(rt; pair.refill() == Ok(()));
    }
    assert!(rt; pair.out() == None);
    let (_, _) = pair.parts();
    Ok(())
}

// A second copy that fails goes out, and is refilled with all that it missed.
#[test]
fn a_second_copy_is_refilled(rt: HostRuntime) -> Result<(), Fail> {
    let alloc = rt.alloc();
    let mut pair = Pair::new(alloc, MemOutside::new(alloc), failing(alloc, 0, 1, 0)?);
    assert!(rt; pair.put(&put_of(Sector(0), 1)) == WRITTEN);
    assert!(rt; pair.put(&put_of(INODE, 2)) == WRITTEN);
    assert!(rt; pair.out() == Some(1));
    if pair.out().is_some() {
        assert!(rt; pair.refill() == Ok(()));
    }
    assert!(rt; pair.out() == None);
    let (_, mut second) = pair.parts();
    assert!(rt; second.get(ServerId(1), Sector(0)) == Ok([1; 512]));
    assert!(rt; second.get(ServerId(1), INODE) == Ok([2; 512]));
    Ok(())
}

// A refilling fails where a get of the copy in use does; the copy stays out, and the next refilling is whole.
#[test]
fn a_refilling_that_fails_is_made_again(rt: HostRuntime) -> Result<(), Fail> {
    let alloc = rt.alloc();
    let mut pair = Pair::new(alloc, failing(alloc, 0, 1, 0)?, failing(alloc, 1, 0, 0)?);
    assert!(rt; pair.put(&put_of(Sector(0), 3)) == WRITTEN);
    if pair.out().is_some() {
        assert!(rt; pair.refill() == Err(RefillFault::Failed));
    }
    assert!(rt; pair.out() == Some(0));
    if pair.out().is_some() {
        assert!(rt; pair.refill() == Ok(()));
    }
    assert!(rt; pair.out() == None);
    assert!(rt; pair.get(ServerId(1), Sector(0)) == Ok([3; 512]));
    let (_, _) = pair.parts();
    Ok(())
}

// A refilling fails too where a put of the copy that is out does.
#[test]
fn a_refilling_whose_put_fails_is_made_again(rt: HostRuntime) -> Result<(), Fail> {
    let alloc = rt.alloc();
    let mut pair = Pair::new(alloc, failing(alloc, 1, 1, 0)?, MemOutside::new(alloc));
    assert!(rt; pair.get(ServerId(1), INODE) == Ok([0; 512]));
    assert!(rt; pair.out() == Some(0));
    assert!(rt; pair.put(&put_of(INODE, 4)) == WRITTEN);
    if pair.out().is_some() {
        assert!(rt; pair.refill() == Err(RefillFault::Failed));
    }
    assert!(rt; pair.out() == Some(0));
    if pair.out().is_some() {
        assert!(rt; pair.refill() == Ok(()));
    }
    assert!(rt; pair.out() == None);
    let (mut first, _) = pair.parts();
    assert!(rt; first.get(ServerId(1), INODE) == Ok([4; 512]));
    Ok(())
}

// A second copy that answers want of memory after the first wrote goes out, and the put is written.
#[test]
fn a_second_copy_that_wants_memory_goes_out(rt: HostRuntime) {
    let alloc = rt.alloc();
    let mut pair = Pair::new(alloc, MemOutside::new(alloc), ShortOutside::new(alloc));
    assert!(rt; pair.put(&put_of(INODE, 5)) == WRITTEN);
    assert!(rt; pair.out() == Some(1));
    assert!(rt; pair.get(ServerId(1), INODE) == Ok([5; 512]));
    if pair.out().is_some() {
        assert!(rt; pair.refill() == Err(RefillFault::NoMemory));
    }
    assert!(rt; pair.out() == Some(1));
    let (_, _) = pair.parts();
}

// A first copy that answers want of memory stays in use, and nothing is written.
#[test]
fn a_first_copy_that_wants_memory_stays(rt: HostRuntime) {
    let alloc = rt.alloc();
    let mut pair = Pair::new(alloc, ShortOutside::new(alloc), MemOutside::new(alloc));
    assert!(rt; pair.put(&put_of(INODE, 5)) == Err(PutFault::NoMemory));
    assert!(rt; pair.out() == None);
    assert!(rt; pair.get(ServerId(1), INODE) == Ok([0; 512]));
    let (_, _) = pair.parts();
}

// Says go to the first copy, also where it is out, and fail as it does.
#[test]
fn says_go_to_the_first_copy(rt: HostRuntime) -> Result<(), Fail> {
    let alloc = rt.alloc();
    let mut pair = Pair::new(alloc, failing(alloc, 0, 1, 2)?, MemOutside::new(alloc));
    assert!(rt; pair.put(&put_of(INODE, 5)) == WRITTEN);
    assert!(rt; pair.out() == Some(0));
    assert!(rt; pair.say(b"one") == Ok(()));
    assert!(rt; pair.say(b"two") == Err(SayFault::Failed));
    let (first, second) = pair.parts();
    assert!(rt; first.acts().len() == 1);
    assert!(rt; second.acts().len() == 1);
    Ok(())
}
