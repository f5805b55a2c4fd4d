// Room for an entry that comes.
ghost use Rattle.std.specs.Prelude.{ℕ, List, IfOk};
ghost use Rattle.disk_definitions.specs.Store.{stored};
ghost use Rattle.disk_definitions.specs.Ask.{bind};
ghost use Rattle.disk_definitions.specs.Plans as plans;
ghost use Rattle.disk_definitions.specs.Plans.{Finish};
ghost use Rattle.dir_lookup.specs.Hands.{seen};
ghost use Rattle.plan_steps.specs.Looking.{Looks};
ghost use Rattle.plan_steps.specs.Nodes.{IsDirectory};
ghost use Rattle.plan_steps.specs.Rooms.{IsRoomOf};
ghost use Rattle.op_dir.specs.Rooming.{FindsRoom, in_room};

use dir_lookup::{Hand, Looked};
use disk_definitions::Inode;
use frang_base::Reply;
use plan_steps::{Room, Stop, clear_room, find_room, nothing_left};

// Room in the directory, clear.
pub(crate) fn room_for(hand: &Hand, directory: &Inode, looked: &mut Looked) -> Result<Room, Stop>
    requires { IsDirectory directory.now }
    ensures finds { FindsRoom hand.now (stored directory.now) result }
    ensures looks { (touched : List ℕ) (finish : plans.Room → Finish) → Looks hand.now.sectors.now.entries hand.now.held.now looked.old looked.new (bind (plans.find_room (seen hand.now) (stored directory.now)) (in_room (seen hand.now) touched finish)) }
    ensures room { IfOk result (IsRoomOf directory.now) }
{
    let found = find_room(hand, directory, looked)?;
    match found {
        Some(room) => {
            clear_room(hand, &room, looked)?;
            Ok(room)
        }
        None => Err(nothing_left(hand, Reply::NoDirBlock)),
    }
}
