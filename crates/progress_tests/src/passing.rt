// What an outside with such a line does, and what it shows.
use crate::terminal::Terminal;
use frang_base::{Sector, ServerId};
use frang_outside::{Act, MemOutside, Outside, Put, PutFault, Taken};
use progress_line::{Place, Shown};
use std::alloc::Global;
use std::test::Fail;

// A put of server 1 that may come until tick 200.
fn put_of(now: u64) -> Put {
    Put {
        server: ServerId(1),
        behalf: ServerId(1),
        stamp: 200,
        now,
        sector: Sector(now),
        bytes: [7; 512],
    }
}

// Puts at the ticks from 1 on, and after each a line and a get of its sector. Whether all are answered so.
fn is_answered<O: Outside>(out: &mut O, puts: u64) -> bool {
    for now in 1..puts.saturating_add(1) {
        let taken: Result<Taken, PutFault> = Ok(Taken::Written);
        let answered = out.put(&put_of(now)) == taken
            && out.say(b"1 0 ok\n") == Ok(())
            && out.get(ServerId(1), Sector(now)) == Ok([7; 512]);
        if !answered {
            return false;
        }
    }
    true
}

fn is_recorded(acts: &[Act], puts: u64) -> bool {
    let mut now: u64 = 1;
    let mut is_put = true;
    for act in acts {
        match act {
            Act::Put(put, taken)
                if is_put && put.sector == Sector(now) && *taken == Taken::Written => {}
            Act::Said(line) if !is_put && line.as_slice() == b"1 0 ok\n".as_slice() => {
                now = now.saturating_add(1);
            }
            _ => return false,
        }
        is_put = !is_put;
    }
    is_put && now == puts.saturating_add(1)
}

// So many puts, a line after each, over a clock that goes on by so many milliseconds a reading: whether all are done, and what is shown.
fn shown(alloc: Global, place: Place, milliseconds: u64, puts: u64) -> (bool, String) {
    let terminal = Terminal::new(alloc, milliseconds);
    let mut out = Shown::new(MemOutside::new(alloc), &terminal, place);
    let answered = is_answered(&mut out, puts);
    let below = out.close();
    let done = answered && is_recorded(below.acts(), puts);
    (done, terminal.text())
}

// The clock is read at each 64th call, first to know when to begin.
static SHOWN: [(Place, u64, u64, &str); 7] = [
    (Place::Nowhere, 1000, 150, ""),
    (Place::Apart, 1000, 0, ""),
    (Place::Apart, 1000, 63, ""),
    (
        Place::Apart,
        1000,
        64,
        "\rlines 64, deaths 0, recoveries 0, puts 64, clock 64\x1b[K\r\x1b[K",
    ),
    (
        Place::Apart,
        50,
        160,
        "\rlines 96, deaths 0, recoveries 0, puts 96, clock 96\x1b[K\rlines 160, deaths 0, recoveries 0, puts 160, clock 160\x1b[K\r\x1b[K",
    ),
    (
        Place::AmongLines,
        1000,
        96,
        "\rlines 64, deaths 0, recoveries 0, puts 64, clock 64\x1b[K\r\x1b[K\rlines 96, deaths 0, recoveries 0, puts 96, clock 96\x1b[K\r\x1b[K",
    ),
    (Place::Apart, 0, 200, ""),
];

#[test]
fn the_line_is_shown_and_the_record_is_the_same(rt: HostRuntime) -> Result<(), Fail> {
    for (place, milliseconds, puts, want) in &SHOWN {
        let (done, text) = shown(rt.alloc(), *place, *milliseconds, *puts);
        assert!(rt; done);
        assert_eq!(rt; text.as_str(), *want);
    }
    Ok(())
}
