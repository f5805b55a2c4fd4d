// The text of the line.
use progress_line::Counts;
use std::test::Fail;

// What is done.
#[derive(Clone, Copy)]
enum Step {
    // A line is said.
    Say(&'static [u8]),
    // A put at this tick.
    Put(u64),
}

fn counts_of(steps: &[Step]) -> Counts {
    let mut counts = Counts::none();
    for step in steps {
        match *step {
            Step::Say(line) => counts.add_line(line),
            Step::Put(now) => counts.add_put(now),
        }
    }
    counts
}

static TEXTS: [(&[Step], &str); 6] = [
    (&[], "puts 0, clock 0"),
    (&[Step::Put(0), Step::Put(7)], "puts 2, clock 7"),
    (
        &[Step::Say(b"1 0 ok\n")],
        "lines 1, deaths 0, recoveries 0, puts 0, clock 0",
    ),
    (
        &[
            Step::Put(18_446_744_073_709_551_615),
            Step::Say(b"! dead 0\n"),
            Step::Say(b"! recovering 0 by 1\n"),
            Step::Say(b"! recovered 0 keeps 1.5\n"),
            Step::Say(b"! dead 15\n"),
        ],
        "lines 4, deaths 2, recoveries 1, puts 1, clock 18446744073709551615",
    ),
    // A reply that has such words is none of these lines.
    (
        &[
            Step::Say(b"13 1 names ! dead 0\n"),
            Step::Say(b"14 1 target ! recovered 0\n"),
        ],
        "lines 2, deaths 0, recoveries 0, puts 0, clock 0",
    ),
    (
        &[Step::Say(b""), Step::Say(b"! dead"), Step::Put(3)],
        "lines 2, deaths 0, recoveries 0, puts 1, clock 3",
    ),
];

#[test]
fn what_was_done_is_told(rt: HostRuntime) -> Result<(), Fail> {
    for (steps, want) in &TEXTS {
        let counts = counts_of(steps);
        let text = format!(in rt.alloc(); "{counts}")?;
        assert_eq!(rt; text.as_str(), *want);
    }
    Ok(())
}
