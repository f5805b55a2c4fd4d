// Writes in flight over a disk in memory: each way in which one ends.
use frang_base::{LockId, NoMemory, Sector, ServerId};
use frang_outside::{FaultyOutside, MemOutside, Outside, Put};
use petal_disk::{Arrived, Flight, IssueFault, Purpose, Ticket};
use std::alloc::Global;
use std::process::Abort;
use std::test::Fail;

// A write of server 0 that may arrive until tick 20.
fn write_of(sector: u64) -> Put {
    Put {
        server: ServerId(0),
        behalf: ServerId(0),
        stamp: 20,
        now: 0,
        sector: Sector(sector),
        bytes: [7; 512],
    }
}

// What is done with writes in flight, or what they answer.
#[derive(Clone, Copy)]
enum Step {
    Reserve,
    Issue(u64, Result<Ticket, IssueFault>),
    // A write arrives at a tick; none where it isn't in flight.
    Arrive(u64, u64, Option<Arrived>),
    Lose(u64),
    Count(usize),
    First(Option<(Ticket, Sector)>),
    At(usize, Option<(Ticket, Sector)>),
    Get(u64, Option<Sector>),
    IssueAs(u64, Purpose, Result<Ticket, IssueFault>),
    Busy(u64, Option<Ticket>),
    MoveCover(u64, LockId),
    LeaveBehind(u8),
    LoseAll(u8),
    HasFlights(u8, bool),
    HasFlightsUnder(u8, LockId, bool),
    // What the write is of, and whether it is of the present mount.
    Flying(u64, Option<(Purpose, bool)>),
    FlyingAt(usize, Option<(Purpose, bool)>),
}

// A write arrives where it is in flight.
fn arrive<O: Outside>(flight: &mut Flight, t: Ticket, now: u64, out: &mut O) -> Option<Arrived> {
    match flight.get(t) {
        Some(_) => Some(flight.arrive(t, now, out)),
        None => None,
    }
}

// A write is lost where it is in flight, and that is said.
fn lose(flight: &mut Flight, t: Ticket) -> bool {
    match flight.get(t) {
        Some(_) => {
            flight.lose(t);
            true
        }
        None => false,
    }
}

fn sector_of(write: Option<(Ticket, &Put)>) -> Option<(Ticket, Sector)> {
    let (ticket, put) = write?;
    Some((ticket, put.sector))
}

fn sector_with(flight: &Flight, t: Ticket) -> Option<Sector> {
    let put = flight.get(t)?;
    Some(put.sector)
}

fn tag_with(flight: &Flight, t: Ticket) -> Option<(Purpose, bool)> {
    let flying = flight.flying(t)?;
    Some((flying.purpose, flying.present))
}

fn tag_at(flight: &Flight, i: usize) -> Option<(Purpose, bool)> {
    let (_, flying) = flight.flying_at(i)?;
    Some((flying.purpose, flying.present))
}

fn move_cover(flight: &mut Flight, sector: u64, cover: LockId) -> bool {
    flight.move_cover(ServerId(0), Sector(sector), cover);
    true
}

fn leave_behind(flight: &mut Flight, server: u8) -> bool {
    flight.leave_behind(ServerId(server));
    true
}

fn lose_all(flight: &mut Flight, server: u8) -> bool {
    flight.lose_all(ServerId(server));
    true
}

// The step is made, and answered so.
fn is_answered<O: Outside>(flight: &mut Flight, out: &mut O, step: Step) -> bool {
    match step {
        Step::Reserve => flight.reserve() == Ok(()),
        Step::Issue(sector, answer) => flight.issue(write_of(sector)) == answer,
        Step::Arrive(t, now, answer) => arrive(flight, Ticket(t), now, out) == answer,
        Step::Lose(t) => lose(flight, Ticket(t)),
        Step::Count(count) => flight.count() == count,
        Step::First(first) => sector_of(flight.first()) == first,
        Step::At(i, write) => sector_of(flight.at(i)) == write,
        Step::Get(t, sector) => sector_with(flight, Ticket(t)) == sector,
        Step::IssueAs(sector, purpose, answer) => {
            flight.issue_as(write_of(sector), purpose) == answer
        }
        Step::Busy(sector, ticket) => flight.busy(Sector(sector)) == ticket,
        Step::MoveCover(sector, cover) => move_cover(flight, sector, cover),
        Step::LeaveBehind(server) => leave_behind(flight, server),
        Step::LoseAll(server) => lose_all(flight, server),
        Step::HasFlights(server, has) => flight.has_flights(ServerId(server)) == has,
        Step::HasFlightsUnder(server, lock, has) => {
            flight.has_flights_under(ServerId(server), lock) == has
        }
        Step::Flying(t, tag) => tag_with(flight, Ticket(t)) == tag,
        Step::FlyingAt(i, tag) => tag_at(flight, i) == tag,
    }
}

// With nothing in flight at first each step is answered.
fn expect<O: Outside>(rt: &impl Abort, alloc: Global, out: &mut O, steps: &[Step]) {
    let mut flight = Flight::new(alloc);
    for (place, step) in steps.iter().enumerate() {
        assert!(rt; is_answered(&mut flight, out, *step), "step {place}");
    }
}

// An outside at which these puts fail.
fn failing(alloc: Global, puts: &[u64]) -> Result<FaultyOutside, NoMemory> {
    let mut all = Vec::new(alloc);
    for put in puts {
        all.push(*put)?;
    }
    Ok(FaultyOutside::new(alloc, Vec::new(alloc), all, Vec::new(alloc)))
}

const LATE: Arrived = Arrived::Late { stamp: 20, now: 21 };

static ARRIVING: [Step; 7] = [
    Step::Reserve,
    Step::Issue(5, Ok(Ticket(0))),
    Step::Issue(5, Err(IssueFault::Busy { ticket: Ticket(0) })),
    Step::Arrive(0, 20, Some(Arrived::Written)),
    Step::Issue(5, Ok(Ticket(1))),
    Step::Arrive(1, 21, Some(LATE)),
    Step::Count(0),
];

#[test]
fn a_write_arrives_until_its_stamp(rt: HostRuntime) {
    let mut out = MemOutside::new(rt.alloc());
    expect(&rt, rt.alloc(), &mut out, &ARRIVING);
}

// The first two puts fail where they are in time.
static LOST: [Step; 17] = [
    Step::Issue(5, Ok(Ticket(0))),
    Step::Issue(6, Ok(Ticket(1))),
    Step::Issue(7, Ok(Ticket(2))),
    Step::HasFlights(1, false),
    Step::Arrive(1, 21, Some(LATE)),
    Step::HasFlights(0, true),
    Step::Count(2),
    Step::At(1, Some((Ticket(2), Sector(7)))),
    Step::First(Some((Ticket(0), Sector(5)))),
    Step::Get(2, Some(Sector(7))),
    Step::Get(1, None),
    Step::Arrive(2, 20, Some(Arrived::Failed)),
    Step::HasFlights(0, true),
    Step::Lose(0),
    Step::HasFlights(0, false),
    Step::Count(0),
    Step::At(0, None),
];

#[test]
fn what_is_lost_or_fails_is_in_flight_no_more(rt: HostRuntime) -> Result<(), Fail> {
    let alloc = rt.alloc();
    let mut out = failing(alloc, &[1, 2])?;
    expect(&rt, alloc, &mut out, &LOST);
    Ok(())
}

const BEFORE: Purpose = Purpose::InPlace(LockId::Node(1));

const AFTER: Purpose = Purpose::InPlace(LockId::Segment(0));

const LOGGED: Purpose = Purpose::OfLog(256);

// Writes of two mounts: what each is of, and what becomes of it.
static TAGGED: [Step; 22] = [
    Step::IssueAs(5, BEFORE, Ok(Ticket(0))),
    Step::IssueAs(6, LOGGED, Ok(Ticket(1))),
    Step::Busy(6, Some(Ticket(1))),
    Step::Busy(7, None),
    Step::MoveCover(5, LockId::Segment(0)),
    Step::MoveCover(6, LockId::Segment(0)),
    Step::Flying(0, Some((AFTER, true))),
    Step::HasFlightsUnder(0, LockId::Segment(0), true),
    Step::HasFlightsUnder(0, LockId::Node(1), false),
    Step::LeaveBehind(1),
    Step::HasFlights(0, true),
    Step::FlyingAt(1, Some((LOGGED, true))),
    Step::LeaveBehind(0),
    Step::HasFlights(0, false),
    Step::IssueAs(7, BEFORE, Ok(Ticket(2))),
    Step::MoveCover(5, LockId::Node(1)),
    Step::FlyingAt(0, Some((AFTER, false))),
    Step::Flying(2, Some((BEFORE, true))),
    Step::LoseAll(1),
    Step::Count(3),
    Step::LoseAll(0),
    Step::Count(0),
];

#[test]
fn a_write_keeps_what_it_is_of(rt: HostRuntime) {
    let mut out = MemOutside::new(rt.alloc());
    expect(&rt, rt.alloc(), &mut out, &TAGGED);
}
