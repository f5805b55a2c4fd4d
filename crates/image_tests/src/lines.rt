// Reports as lines, and a disk whose log holds a record.
use crate::disks::{report_of, small_report};
use frang_base::NoMemory;
use fsck_report::{Report, report_line};
use std::alloc::Global;
use std::test::Fail;

// A fresh disk of 16 segments, but for a bit without its inode.
const FRESH: &str = "
0 0:'FRANGPAR 8:010000001000000001
k0 0:01 8:03
i0 0:01 8:020001
";

// A fresh disk of one segment whose first log has a record of a file `a` in the root: the segment with its inode and the root's first block,
// the root, the inode, the entry.
const LOGGED: &str = "
0 0:'FRANGPAR 8:010000000100000001
k0 0:01 8:01
i0 0:01 8:020001
2147483648 0:00010000000000000200000001000000000001007900 24:0400 26:000000000100000002000000000000000200 44:08000100031000010003 \
    54:000000800200000002000000000000000200 72:0c000100011000010001 82:010000800200000001000000000000000200 100:08000300010001 \
    107:180005000200000001 116:000000000300000001000000000000000100 134:08000700010000000101'a
";

// The small disk with a bit without its inode, and with a wrong count of entries.
const TWO_FAULTS: &str = "k0 8:1f; i0 16:05";

fn is_line(alloc: Global, report: Option<Report>, line: &str) -> Result<bool, NoMemory> {
    let Some(report) = report else {
        return Ok(false);
    };
    Ok(report_line(alloc, &report)?.as_slice() == line.as_bytes())
}

#[test]
fn a_sound_disk_is_told_in_a_line(rt: HostRuntime) -> Result<(), Fail> {
    let line =
        "{\"blocks\":20,\"dirs\":2,\"faults\":[],\"files\":2,\"larges\":1,\"links\":1,\"segments\":2,\"stands\":true}";
    let report = small_report(&rt, rt.alloc(), "")?;
    assert!(rt; is_line(rt.alloc(), report, line)?);
    Ok(())
}

#[test]
fn a_fault_is_told_in_a_line(rt: HostRuntime) -> Result<(), Fail> {
    let line =
        "{\"blocks\":0,\"dirs\":1,\"faults\":[[4294967296,7]],\"files\":0,\"larges\":0,\"links\":0,\"segments\":16,\"stands\":false}";
    let report = report_of(&rt, rt.alloc(), FRESH, "")?;
    assert!(rt; is_line(rt.alloc(), report, line)?);
    Ok(())
}

#[test]
fn faults_are_told_in_order(rt: HostRuntime) -> Result<(), Fail> {
    let line =
        "{\"blocks\":20,\"dirs\":2,\"faults\":[[4294967296,7],[10737418240,4]],\"files\":2,\"larges\":1,\"links\":1,\"segments\":2,\"stands\":false}";
    let report = small_report(&rt, rt.alloc(), TWO_FAULTS)?;
    assert!(rt; is_line(rt.alloc(), report, line)?);
    Ok(())
}

#[test]
fn logs_are_replayed_before(rt: HostRuntime) -> Result<(), Fail> {
    let line =
        "{\"blocks\":1,\"dirs\":1,\"faults\":[],\"files\":1,\"larges\":0,\"links\":0,\"segments\":1,\"stands\":true}";
    let report = report_of(&rt, rt.alloc(), LOGGED, "")?;
    assert!(rt; is_line(rt.alloc(), report, line)?);
    Ok(())
}
