// Rows of several servers, on threads and by orders: what is said is the same in whatever way the events come.
use crate::builders::{DONE, Told, tell_words, words_in};
use frang_base::NoMemory;
use std::alloc::Global;
use std::process::Abort;
use std::sync::Wait;
use std::test::Fail;
use std::thread::Threads;

// Options besides the way in which events come, a script, and what its run says.
struct Row {
    options: &'static str,
    script: &'static str,
    said: &'static str,
}

// Ways in which events come: on threads, and by ten orders.
pub static WAYS: [&str; 11] = [
    "run s",
    "run s --order 0",
    "run s --order 1",
    "run s --order 2",
    "run s --order 3",
    "run s --order 4",
    "run s --order 5",
    "run s --order 6",
    "run s --order 7",
    "run s --order 8",
    "run s --order 9",
];

static ROWS: [Row; 17] = [
    // what was synced is kept
    Row {
        options: "",
        script: "0 mount\n0 create /a\n0 sync\n",
        said: "1 0 mounted\n2 0 ok\n3 0 ok\n= / dir 1\n= /a file 0 1\n! end\n",
    },
    // two servers create one name
    Row {
        options: "",
        script: "0 mount\n0 create /a\nbarrier\n1 mount\n1 create /a\n",
        said: "1 0 mounted\n2 0 ok\n3 - ok\n4 1 mounted\n5 1 exist\n= / dir 1\n= /a file 0 1\n! end\n",
    },
    // a create that nobody saw is lost with its server
    Row {
        options: "",
        script: "0 mount\n0 create /a\n0 crash\nbarrier\n1 mount\n1 list /\n",
        said: "1 0 mounted\n2 0 ok\n! dead 0\n3 0 ok\n4 - ok\n5 1 mounted\n! recovering 0 by 1\n! recovered 0 keeps 0.0\n6 1 names\n= / dir 0\n! end\n",
    },
    // behind a sync only what came later is lost
    Row {
        options: "",
        script: "0 mount\n0 create /a\n0 sync\n0 create /b\n0 crash\n",
        said: "1 0 mounted\n2 0 ok\n3 0 ok\n4 0 ok\n! dead 0\n5 0 ok\n! recovering 0 by -\n! recovered 0 keeps 1.2\n= / dir 1\n= /a file 0 1\n! end\n",
    },
    // a create that another server saw lasts
    Row {
        options: "",
        script: "0 mount\n0 create /a\nbarrier\n1 mount\n1 stat /a\nbarrier\n0 crash\n",
        said: "1 0 mounted\n2 0 ok\n3 - ok\n4 1 mounted\n5 1 file 0 1\n6 - ok\n! dead 0\n7 0 ok\n! recovering 0 by 1\n! recovered 0 keeps 1.2\n= / dir 1\n= /a file 0 1\n! end\n",
    },
    // a record of several sectors is torn
    Row {
        options: "",
        script: "0 mount\n0 create /a\n0 sync\n0 symlink /l tttttttttttttttttttttttttttttttttttttttttttttttttttttttttttttttttttttttttttttttttttttttttttttttttttttttttttttttttttttttttttttttttttttttttttttttttttttttttttttttttttttttttttttttttttttttttttttttttttttttttttttttttttttttttttttttttttttttttttttttttttttttttttttttttttttttttttttttttttttttttttttttttttttttttttttttttttttttttttttttttttttttttttttttttttttttttttttttttttttttttttttttttttttttttttttttt\n0 cut 2\n0 sync\n",
        said: "1 0 mounted\n2 0 ok\n3 0 ok\n4 0 ok\n5 0 ok\n! dead 0\n6 0 down\n! recovering 0 by -\n! recovered 0 keeps 1.2\n= / dir 1\n= /a file 0 1\n! end\n",
    },
    // a server dies while it puts what its log has
    Row {
        options: "",
        script: "0 mount\n0 mkdir /d\n0 create /a\n0 sync\n0 rename /a /d/b\n0 sync\n0 crash 3\n0 unmount\n",
        said: "1 0 mounted\n2 0 ok\n3 0 ok\n4 0 ok\n5 0 ok\n6 0 ok\n7 0 ok\n! dead 0\n8 0 down\n! recovering 0 by -\n! recovered 0 keeps 1.5\n= / dir 1\n= /d dir 1\n= /d/b file 0 1\n! end\n",
    },
    // a lease ends while its server is stalled
    Row {
        options: "",
        script: "0 mount\n0 create /a\n0 stall\ntick 40\n0 stat /a\n0 unmount\n0 mount\n0 stat /a\n",
        said: "1 0 mounted\n2 0 ok\n3 0 ok\n! dead 0\n! recovering 0 by -\n! recovered 0 keeps 0.0\n4 - ok\n5 0 expired\n6 0 ok\n7 0 mounted\n8 0 noent\n= / dir 0\n! end\n",
    },
    // one who has nothing in memory outlives its lease
    Row {
        options: "",
        script: "0 mount\n0 stat /\n0 stall\ntick 40\n0 stat /\n",
        said: "1 0 mounted\n2 0 dir 0\n3 0 ok\n! renewed 0\n4 - ok\n5 0 dir 0\n= / dir 0\n! end\n",
    },
    // others go on in the directory of a dead server
    Row {
        options: "",
        script: "0 mount\n0 mkdir /d\n0 create /d/a\nbarrier\n1 mount\n1 create /d/b\n1 sync\nbarrier\n0 crash\nbarrier\n1 create /d/c\n",
        said: "1 0 mounted\n2 0 ok\n3 0 ok\n4 - ok\n5 1 mounted\n6 1 ok\n7 1 ok\n8 - ok\n! dead 0\n9 0 ok\n10 - ok\n11 1 ok\n! recovering 0 by 1\n! recovered 0 keeps 1.3\n= / dir 1\n= /d dir 3\n= /d/a file 0 1\n= /d/b file 0 1\n= /d/c file 0 1\n! end\n",
    },
    // a block freed by one server is used by another
    Row {
        options: " --segments 1",
        script: "0 mount\n0 mkdir /d\n0 create /d/x\n0 unlink /d/x\n0 rmdir /d\nbarrier\n1 mount\n1 mkdir /e\n1 create /e/y\n1 sync\nbarrier\n0 crash\nbarrier\n1 list /e\n",
        said: "1 0 mounted\n2 0 ok\n3 0 ok\n4 0 ok\n5 0 ok\n6 - ok\n7 1 mounted\n8 1 ok\n9 1 ok\n10 1 ok\n11 - ok\n! dead 0\n12 0 ok\n13 - ok\n14 1 names y\n! recovering 0 by 1\n! recovered 0 keeps 1.5\n= / dir 1\n= /e dir 1\n= /e/y file 0 1\n! end\n",
    },
    // a link that another server followed lasts
    Row {
        options: "",
        script: "0 mount\n0 mkdir /d\n0 symlink /l d\nbarrier\n1 mount\n1 create /l/x\nbarrier\n0 crash\n",
        said: "1 0 mounted\n2 0 ok\n3 0 ok\n4 - ok\n5 1 mounted\n6 1 ok\n7 - ok\n! dead 0\n8 0 ok\n! recovering 0 by 1\n! recovered 0 keeps 1.3\n= / dir 2\n= /d dir 1\n= /d/x file 0 1\n= /l link 1\n! end\n",
    },
    // bytes of a removed write may stand, but reads agree
    Row {
        options: "",
        script: "0 mount\n0 create /f\n0 fill /f 0 1024 61\n0 sync\n0 write /f 0 zz\n0 crash\nbarrier\n1 mount\n1 stat /f\n1 read /f 512 4\n1 read /f 0 2\n1 read /f 0 2\n",
        said: "1 0 mounted\n2 0 ok\n3 0 ok\n4 0 ok\n5 0 ok\n! dead 0\n6 0 ok\n7 - ok\n8 1 mounted\n! recovering 0 by 1\n! recovered 0 keeps 1.3\n9 1 file 1024 1\n10 1 data 61616161\n11 1 data 6161\n12 1 data 6161\n= / dir 1\n= /f file 1024 1\n! end\n",
    },
    // paths lead through links
    Row {
        options: "",
        script: "0 mount\n0 mkdir /d\n0 create /d/f\n0 write /d/f 0 hi\n0 symlink /l d\n0 symlink /m /l/f\n0 read /m 0 2\n0 stat /m\n0 symlink /o o\n0 read /o 0 1\n0 list /l\n0 rename /d /l/e\n",
        said: "1 0 mounted\n2 0 ok\n3 0 ok\n4 0 ok\n5 0 ok\n6 0 ok\n7 0 data 6869\n8 0 link 4\n9 0 ok\n10 0 loop\n11 0 names f\n12 0 inval\n= / dir 4\n= /d dir 1\n= /d/f file 2 1\n= /l link 1\n= /m link 4\n= /o link 1\n! end\n",
    },
    // files have the time of their last change
    Row {
        options: "",
        script: "0 mount\n0 create /f\ntick 7\n0 write /f 0 a\n0 time /f\n0 time /\ntick 5\n0 truncate /f 1\n0 time /f\n",
        said: "1 0 mounted\n2 0 ok\n3 - ok\n4 0 ok\n5 0 time 1.7\n6 0 isdir\n7 - ok\n8 0 ok\n9 0 time 1.12\n= / dir 1\n= /f file 1 1\n! end\n",
    },
    // eight links are followed, and no ninth
    Row {
        options: "",
        script: "0 mount\n0 create /f\n0 symlink /c1 /f\n0 symlink /c2 /c1\n0 symlink /c3 /c2\n0 symlink /c4 /c3\n0 symlink /c5 /c4\n0 symlink /c6 /c5\n0 symlink /c7 /c6\n0 symlink /c8 /c7\n0 symlink /c9 /c8\n0 read /c8 0 1\n0 read /c9 0 1\n",
        said: "1 0 mounted\n2 0 ok\n3 0 ok\n4 0 ok\n5 0 ok\n6 0 ok\n7 0 ok\n8 0 ok\n9 0 ok\n10 0 ok\n11 0 ok\n12 0 data\n13 0 loop\n= / dir 10\n= /c1 link 2\n= /c2 link 3\n= /c3 link 3\n= /c4 link 3\n= /c5 link 3\n= /c6 link 3\n= /c7 link 3\n= /c8 link 3\n= /c9 link 3\n= /f file 0 1\n! end\n",
    },
    // behind a halt nothing is said
    Row {
        options: "",
        script: "0 mount\n0 create /a\nbarrier\n1 mount\n1 create /b\nbarrier\n0 stat /b\n0 create /c\nhalt\n",
        said: "1 0 mounted\n2 0 ok\n3 - ok\n4 1 mounted\n5 1 ok\n6 - ok\n7 0 file 0 1\n8 0 ok\n9 - ok\n",
    },
];

// What a run with these words, parted by blanks, and these options tells.
pub fn tell_way(
    rt: &(impl Threads + Wait + Sync),
    alloc: Global,
    way: &str,
    options: &str,
    script: &str,
) -> Result<Told, NoMemory> {
    let mut words = words_in(alloc, way)?;
    for word in options.split_whitespace() {
        words.push(String::from_str(alloc, word)?)?;
    }
    tell_words(rt, alloc, &words, script.as_bytes())
}

fn says(told: &Told, said: &str) -> bool {
    told.status == DONE && told.text.as_slice() == said.as_bytes()
}

// A row is said in each way.
fn expect_row(
    rt: &(impl Abort + Threads + Wait + Sync),
    alloc: Global,
    row: &Row,
) -> Result<(), Fail> {
    for way in &WAYS {
        let told = tell_way(rt, alloc, way, row.options, row.script)?;
        assert!(rt; says(&told, row.said), "{way}: {}", row.script);
    }
    Ok(())
}

#[test]
fn rows_are_said_in_each_way(rt: HostRuntime) -> Result<(), Fail> {
    for row in &ROWS {
        expect_row(&rt, rt.alloc(), row)?;
    }
    Ok(())
}

// ---- who recovers dies

static RECOVERER: &str =
    "0 mount\n0 create /a\n0 sync\nbarrier\n1 mount\n1 crash 1\nbarrier\n0 crash\nbarrier\n1 list /\nbarrier\n2 mount\n2 list /\n";

// The answer may come before, between or behind the lines on the second recovery.
static RECOVERED: [&str; 3] = [
    "1 0 mounted\n2 0 ok\n3 0 ok\n4 - ok\n5 1 mounted\n6 1 ok\n7 - ok\n! dead 0\n8 0 ok\n9 - ok\n! recovering 0 by 1\n! dead 1\n10 1 down\n11 - ok\n12 2 mounted\n! recovering 0 by 2\n! recovered 0 keeps 1.2\n13 2 names a\n! recovering 1 by 2\n! recovered 1 keeps 0.0\n= / dir 1\n= /a file 0 1\n! end\n",
    "1 0 mounted\n2 0 ok\n3 0 ok\n4 - ok\n5 1 mounted\n6 1 ok\n7 - ok\n! dead 0\n8 0 ok\n9 - ok\n! recovering 0 by 1\n! dead 1\n10 1 down\n11 - ok\n12 2 mounted\n! recovering 0 by 2\n! recovered 0 keeps 1.2\n! recovering 1 by 2\n13 2 names a\n! recovered 1 keeps 0.0\n= / dir 1\n= /a file 0 1\n! end\n",
    "1 0 mounted\n2 0 ok\n3 0 ok\n4 - ok\n5 1 mounted\n6 1 ok\n7 - ok\n! dead 0\n8 0 ok\n9 - ok\n! recovering 0 by 1\n! dead 1\n10 1 down\n11 - ok\n12 2 mounted\n! recovering 0 by 2\n! recovered 0 keeps 1.2\n! recovering 1 by 2\n! recovered 1 keeps 0.0\n13 2 names a\n= / dir 1\n= /a file 0 1\n! end\n",
];

#[test]
fn a_recoverer_dies_and_is_recovered(rt: HostRuntime) -> Result<(), Fail> {
    for way in &WAYS {
        let told = tell_way(&rt, rt.alloc(), way, "", RECOVERER)?;
        assert!(rt; RECOVERED.iter().any(|said| says(&told, said)), "{way}");
    }
    Ok(())
}
