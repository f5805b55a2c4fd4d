// Disks of both formats by their bytes, and the times of their files.
use crate::builders::image_of;
use disk_definitions::Disk;
use disk_reading::tree_read;
use frang_base::NoMemory;
use image_file::read_image;
use std::alloc::Global;
use std::test::Fail;
use tree_definitions::Node;

// Six sectors: the parameters, the segment, the root, the files `a` and `b`, the root's entries.
const LEN: usize = 3136;

// A disk of format 1 in its first run, with two empty files in the root.
const WITHOUT_TIMES: &str =
    "0:'FRANGIM1 8:06 24:'FRANGPAR 32:010000000100000001 540:01 544:01 552:07 560:03 1059:8002 1064:01 1072:020001000100000002 1576:0100008002 1584:01 \
    1592:010001 2096:0200008002 2104:01 2112:010001 2620:03 2632:010000000101'a 2704:020000000101'b";

// What is otherwise on one of format 2 in its third run, in which `a` was last written at tick 513.
const WITH_TIMES: &str = "32:02 40:03 1684:0102000003";

fn time_of(node: Option<&Node>) -> Option<u64> {
    match node {
        Some(Node::File { when, .. }) => Some(*when),
        _ => None,
    }
}

// The times of the files `a` and `b` in the tree that the image stands for, these pieces laid over it.
fn times(alloc: Global, later: &str) -> Result<(Option<u64>, Option<u64>), NoMemory> {
    let image = image_of(alloc, LEN, WITHOUT_TIMES, later)?;
    match read_image(alloc, &image) {
        Ok(disk) => times_on(alloc, &disk),
        Err(_) => Ok((None, None)),
    }
}

// The same of the tree that the disk stands for.
fn times_on(alloc: Global, disk: &Disk) -> Result<(Option<u64>, Option<u64>), NoMemory> {
    match tree_read(alloc, disk)? {
        Some(tree) => Ok((time_of(tree.node(1)), time_of(tree.node(2)))),
        None => Ok((None, None)),
    }
}

#[test]
fn a_file_has_the_time_that_its_disk_keeps(rt: HostRuntime) -> Result<(), Fail> {
    assert!(rt; times(rt.alloc(), "")? == (Some(0), Some(0)));
    // Run 3 times 2^32, and the tick.
    assert!(rt; times(rt.alloc(), WITH_TIMES)? == (Some(12_884_902_401), Some(0)));
    Ok(())
}
