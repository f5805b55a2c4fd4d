// Where things lie on the disk.
use frang_base::{LockId, Sector};
use frang_layout::{Region, free_cover, region_of, sector_of};

// The first sectors of things on a disk of 16 segments, as the format lists them.
static PLACES: [(u64, Region); 11] = [
    (0, Region::Param),
    (2_147_483_648, Region::Log { server: 0, slot: 0 }),
    (2_155_872_256, Region::Log { server: 1, slot: 0 }),
    (
        4_286_578_943,
        Region::Log {
            server: 255,
            slot: 255,
        },
    ),
    (4_294_967_311, Region::Segment(15)),
    (10_737_418_241, Region::Inode(1)),
    (10_737_419_263, Region::Inode(1023)),
    (12_884_901_896, Region::Small { block: 1, part: 0 }),
    (
        12_885_032_959,
        Region::Small {
            block: 16383,
            part: 7,
        },
    ),
    (287_762_808_832, Region::Large { block: 0, part: 0 }),
    (
        319_975_065_599,
        Region::Large {
            block: 15,
            part: 2047,
        },
    ),
];

// What lies in a sector of such a disk.
fn found(sector: u64) -> Option<Region> {
    region_of(Sector(sector), 16)
}

#[test]
fn places_are_found_at_their_sectors(rt: HostRuntime) {
    for (sector, region) in &PLACES {
        assert!(rt; found(*sector) == Some(*region), "sector {sector}");
        assert!(rt; sector_of(region) == Sector(*sector), "sector {sector}");
    }
}

static OTHERS: [u64; 11] = [
    1,
    2_147_483_647,
    2_147_483_904,
    4_286_578_944,
    4_294_967_312,
    10_737_419_264,
    12_885_032_960,
    287_762_808_831,
    287_762_810_880,
    322_122_547_200,
    u64::MAX,
];

#[test]
fn other_sectors_are_in_no_region(rt: HostRuntime) {
    for sector in &OTHERS {
        assert!(rt; found(*sector).is_none(), "sector {sector}");
    }
}

// What lies on the disk, and the lock that covers it while it is free.
static COVERS: [(Region, Option<LockId>); 8] = [
    (Region::Param, None),
    (Region::Log { server: 1, slot: 2 }, None),
    (Region::Segment(7), Some(LockId::Segment(7))),
    (Region::Inode(63), Some(LockId::Segment(0))),
    (Region::Inode(64), Some(LockId::Segment(1))),
    (
        Region::Small {
            block: 1023,
            part: 7,
        },
        Some(LockId::Segment(0)),
    ),
    (
        Region::Small {
            block: 1024,
            part: 0,
        },
        Some(LockId::Segment(1)),
    ),
    (
        Region::Large { block: 3, part: 9 },
        Some(LockId::Segment(3)),
    ),
];

#[test]
fn segments_cover_what_is_free(rt: HostRuntime) {
    for (region, cover) in &COVERS {
        assert!(rt; free_cover(region) == *cover);
    }
}
