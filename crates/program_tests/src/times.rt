// The times of files, and lines of the host: whole runs, worked out by hand.
use crate::builders::{Run, expect_runs};
use std::test::Fail;

static TIMES: [Run; 5] = [
    // a time is that of the last write, fill or truncate
    (
        "0 mount\n0 create /f\ntick 7\n0 write /f 0 a\n0 time /f\n0 time /\ntick 5\n0 truncate /f 1\n0 time /f\n",
        "1 0 mounted\n2 0 ok\n3 - ok\n4 0 ok\n5 0 time 1.7\n6 0 isdir\n7 - ok\n8 0 ok\n9 0 time 1.12\n= / dir 1\n= /f file 1 1\n! end\n",
    ),
    // what was never written has none, and what was refused leaves it
    (
        "0 mount\n0 create /f\ntick 3\n0 time /f\n0 write /f 1 a\n0 time /f\n0 fill /f 0 2 61\n0 time /f\ntick 10000\n0 truncate /f 3\n0 write /f 3 a\n0 fill /f 2 1114112 61\n0 time /f\n",
        "1 0 mounted\n2 0 ok\n3 - ok\n4 0 time 0.0\n5 0 badoffset\n6 0 time 0.0\n7 0 ok\n8 0 time 1.3\n9 - ok\n10 0 badoffset\n11 0 badoffset\n12 0 toobig\n13 0 time 1.3\n= / dir 1\n= /f file 2 1\n! end\n",
    ),
    // neither looks nor names change it, and a truncate to the same size does
    (
        "0 mount\n0 create /f\n0 write /f 0 a\ntick 2\n0 read /f 0 1\n0 stat /f\n0 link /f /g\n0 rename /f /h\n0 time /g\n0 time /h\n0 unlink /g\n0 time /h\n0 truncate /h 1\n0 time /h\n",
        "1 0 mounted\n2 0 ok\n3 0 ok\n4 - ok\n5 0 data 61\n6 0 file 1 1\n7 0 ok\n8 0 ok\n9 0 time 1.0\n10 0 time 1.0\n11 0 ok\n12 0 time 1.0\n13 0 ok\n14 0 time 1.2\n= / dir 1\n= /h file 1 1\n! end\n",
    ),
    // a link at the end is followed, also to a directory
    (
        "0 mount\n0 mkdir /d\n0 create /d/f\n0 symlink /l d/f\n0 symlink /m d\n0 symlink /o o\n0 symlink /n x\ntick 1\n0 write /l 0 a\n0 time /l\n0 time /m/f\n0 time /m\n0 time /o\n0 time /n\n",
        "1 0 mounted\n2 0 ok\n3 0 ok\n4 0 ok\n5 0 ok\n6 0 ok\n7 0 ok\n8 - ok\n9 0 ok\n10 0 time 1.1\n11 0 time 1.1\n12 0 isdir\n13 0 loop\n14 0 noent\n= / dir 5\n= /d dir 1\n= /d/f file 1 1\n= /l link 3\n= /m link 1\n= /n link 1\n= /o link 1\n! end\n",
    ),
    // refusals of the walk come first
    (
        "0 time /f\n0 mount\n0 create /f\n0 time /x\n0 time /x/y\n0 time /f/x\n",
        "1 0 down\n2 0 mounted\n3 0 ok\n4 0 noent\n5 0 noent\n6 0 notdir\n= / dir 1\n= /f file 0 1\n! end\n",
    ),
];

static HOSTS: [Run; 4] = [
    // ticks pass whether a server is mounted or not
    (
        "tick 1\n0 mount\ntick 10000\nbarrier\n0 create /f\ntick 10000\n0 write /f 0 a\n0 time /f\n",
        "1 - ok\n2 0 mounted\n3 - ok\n4 - ok\n5 0 ok\n6 - ok\n7 0 ok\n8 0 time 1.20001\n= / dir 1\n= /f file 1 1\n! end\n",
    ),
    // after a halt nothing is said
    (
        "0 mount\n0 create /a\nhalt\n",
        "1 0 mounted\n2 0 ok\n3 - ok\n",
    ),
    ("halt\n\n# no more\n", "1 - ok\n"),
    ("tick 30", "1 - ok\n= / dir 0\n! end\n"),
];

#[test]
fn files_have_the_times_of_their_last_writes(rt: HostRuntime) -> Result<(), Fail> {
    expect_runs(&rt, rt.alloc(), &TIMES)
}

#[test]
fn lines_of_the_host_are_answered(rt: HostRuntime) -> Result<(), Fail> {
    expect_runs(&rt, rt.alloc(), &HOSTS)
}
