// What a change of a stored world is of its core.
ghost use Rattle.world_definitions.specs.Laws.{ALineIsAnswered, ALinePasses, AServerChanges, AServerIsHeld, EachServerChanges, TheFirstIsFirst, TheHostChanges};

/// Before anything has happened it is the first core.
pub fn the_first_is_first()
    ensures first { TheFirstIsFirst }
{}

/// One server that is changed is changed in the core, and nothing else.
pub fn a_server_changes()
    ensures changed { AServerChanges }
{}

/// Each server that is changed is changed in the core, where the change makes nothing of one that was never mounted.
pub fn each_server_changes()
    ensures changed { EachServerChanges }
{}

/// The host's recovery is the core's.
pub fn the_host_changes()
    ensures changed { TheHostChanges }
{}

/// A line that is marked as answered is answered in the core, and no other.
pub fn a_line_is_answered()
    ensures marked { ALineIsAnswered }
{}

/// A line that is marked as past the gate has passed it in the core, and no other.
pub fn a_line_passes()
    ensures marked { ALinePasses }
{}

/// A server that is marked as held is held in the core, and no other.
pub fn a_server_is_held()
    ensures marked { AServerIsHeld }
{}
