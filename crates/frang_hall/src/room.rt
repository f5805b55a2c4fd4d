// What workers turn behind a lock, and the hall turned so.
ghost use Rattle.std.specs.Prelude.{◌<◌};
ghost use Rattle.hall_runs.specs.Keeping.{Kept};
ghost use Rattle.frang_hall.specs.Finishing.{Finished};

use crate::hall::Hall;
use crate::machine::Machine;
use crate::name::Naming;
use frang_base::{NoMemory, Sector, ServerId};
use frang_outside::{Gate, Outside};
use hall_runs::{End, Turn};
use std::sync::{Mutex, Wait};
use std::thread;
use std::thread::Threads;

/// What a run came to.
#[derive(Clone, Copy, Debug, PartialEq, Eq)]
pub struct Finish {
    pub mute: bool,
    pub fault: Option<Sector>,
    pub said: u64,
}

/// What workers turn under a lock: a hall, or one with more beside it. What its type keeps is kept over all turns.
pub trait Turning {
    /// A turn of this worker.
    fn take_turn<R: Wait>(&mut self, rt: &R, worker: u8) -> Result<Turn, NoMemory>;

    /// The line that a turn gave to the gate has passed it.
    fn pass(&mut self, line: u32);
}

impl<M: Machine, O: Outside, N: Naming> Turning for Hall<M, O, N> {
    fn take_turn<R: Wait>(&mut self, _rt: &R, worker: u8) -> Result<Turn, NoMemory> {
        self.turn(worker)
    }

    fn pass(&mut self, line: u32) {
        self.entered(line);
    }
}

// What lies under the lock: what is turned, whether some worker wants memory, and how many turns were made, around its type's end.
struct Room<T: Turning> {
    turned: T,
    want: bool,
    turns: u64,
}

// What a worker does after a turn.
enum Then {
    Again,
    Enter { server: ServerId, line: u32 },
    // Nothing was to be done after so many turns.
    Pause { turns: u64 },
    Leave,
}

impl<T: Turning> Room<T> {
    // A turn of this worker; none where it found nothing to be done, and no turn was made since.
    fn turn<R: Wait>(&mut self, rt: &R, worker: u8, idle: Option<u64>) -> Then {
        if self.want {
            return Then::Leave;
        }
        if idle == Some(self.turns) {
            return Then::Pause { turns: self.turns };
        }
        match self.turned.take_turn(rt, worker) {
            Ok(Turn::Did) => {
                self.turns = self.turns.wrapping_add(1);
                Then::Again
            }
            Ok(Turn::Gate { server, line }) => Then::Enter { server, line },
            Ok(Turn::Idle) => Then::Pause { turns: self.turns },
            Ok(Turn::Ended | Turn::Mute | Turn::Fault { .. }) => {
                self.turns = self.turns.wrapping_add(1);
                Then::Leave
            }
            Err(NoMemory) => {
                self.want = true;
                Then::Leave
            }
        }
    }

    // A line has passed the gate, and what waited for that may go on.
    fn entered(&mut self, line: u32) {
        self.turned.pass(line);
        self.turns = self.turns.wrapping_add(1);
    }
}

fn work<T: Turning, G: Gate, R: Wait>(rt: &R, room: &Mutex<Room<T>>, gate: &G, worker: u8) {
    let mut idle = None;
    for _ in rt.forever() {
        let then = room.lock(rt).turn(rt, worker, idle);
        idle = None;
        match then {
            Then::Again => {}
            Then::Enter { server, line } => {
                gate.enter(server, line);
                room.lock(rt).entered(line);
            }
            Then::Pause { turns } => {
                idle = Some(turns);
                thread::yield_now();
            }
            Then::Leave => break,
        }
    }
}

/// What workers turn, behind its lock.
pub struct Locked<T: Turning> {
    room: Mutex<Room<T>>,
}

impl<T: Turning> Locked<T> {
    /// Puts this behind a lock.
    pub fn new(turned: T) -> Self {
        Locked {
            room: Mutex::new(Room {
                turned,
                want: false,
                turns: 0,
            }),
        }
    }

    /// Has this many workers take turns, until each of them was told the end, or one of them wants memory. A worker calls the gate outside the lock.
    pub fn run<G: Gate + Sync, R: Threads + Wait + Sync>(&self, rt: &R, workers: u8, gate: &G)
    where
        T: Send,
        requires { 0 < workers }
    {
        let mut seats = [0u8; 255];
        for (seat, number) in seats.iter_mut().zip(0u8..255) {
            *seat = number;
        }
        let room = &self.room;
        let count = usize::from(workers);
        thread::for_each_mut(
            rt,
            &mut seats[..count],
            count,
            &|_, seat: &mut u8| { work(rt, room, gate, *seat) },
        );
    }

    /// What was turned.
    pub fn into_inner(self) -> T {
        let Locked { room } = self;
        let Room {
            turned,
            want: _,
            turns: _,
        } = room.into_inner();
        turned
    }
}

/// Runs the hall by this many workers, and gives it back. A worker calls the gate outside the lock.
pub fn run_threads<
    M: Machine + Send,
    O: Outside + Send,
    G: Gate + Sync,
    N: Naming + Send,
    R: Threads + Wait + Sync,
>(rt: &R, hall: Hall<M, O, N>, workers: u8, gate: &G) -> (Hall<M, O, N>, Result<Finish, NoMemory>)
    requires { 0 < workers }
    ensures kept { Kept (M.stands result.0.world) N.outset result.0.over result.0.said (O.state result.0.out) }
    ensures finish { Finished result.0.over result.0.said result.1 }
{
    let locked = Locked::new(hall);
    locked.run(rt, workers, gate);
    let hall = locked.into_inner();
    hall.shows();
    let finish = what_came(&hall);
    (hall, finish)
}

/// What a run came to.
pub fn what_came<M: Machine, O: Outside, N: Naming>(
    hall: &Hall<M, O, N>,
) -> Result<Finish, NoMemory>
    ensures { Finished hall.now.over hall.now.said result }
{
    let said = hall.said();
    match hall.over() {
        None => Err(NoMemory),
        Some(End::Ended) => Ok(Finish {
            mute: false,
            fault: None,
            said,
        }),
        Some(End::Mute) => Ok(Finish {
            mute: true,
            fault: None,
            said,
        }),
        Some(End::Fault(sector)) => Ok(Finish {
            mute: false,
            fault: Some(sector),
            said,
        }),
    }
}

// The next state of the generator by which events are picked, and the draw that it gives.
fn drawn(state: u64) -> (u64, u64) {
    let next = state
        .wrapping_mul(6_364_136_223_846_793_005)
        .wrapping_add(1_442_695_040_888_963_407);
    (next, next >> 33)
}

/// Runs the hall by one worker, which picks each event by the generator that begins with this order. The gate is passed at once.
pub fn run_order<M: Machine, O: Outside, N: Naming, R: Wait>(
    rt: &R,
    hall: &mut Hall<M, O, N>,
    order: u64,
) -> Result<Finish, NoMemory>
    ensures kept { Kept (M.stands hall.new.world) N.outset hall.new.over hall.new.said (O.state hall.new.out) }
    ensures finish { Finished hall.new.over hall.new.said result }
{
    let mut state = order;
    for _ in rt.forever() {
        let (next, draw) = drawn(state);
        match hall.turn_drawn(draw) {
            Ok(Turn::Gate { line, .. }) => hall.entered(line),
            Ok(Turn::Did) => state = next,
            Ok(Turn::Idle) => {}
            Ok(Turn::Ended | Turn::Mute | Turn::Fault { .. }) | Err(NoMemory) => break,
        }
    }
    hall.shows();
    what_came(hall)
}
