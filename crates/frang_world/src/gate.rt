// The gate: which line of a server it keeps, and that one passes.
ghost use Rattle.std.specs.Prelude.{◌≡◌, None, true};
ghost use Rattle.frang_base.specs.Functions.{put};
ghost use Rattle.frang_base.specs.declared.script.Line.{Line as TheLine};
ghost use Rattle.core_definitions.specs.Runs.{CanEnter};
ghost use Rattle.hall_runs.specs.Gates.{line_at_gate, number_to_enter};
ghost use Rattle.frang_world.specs.States.{core_of};

use crate::world::{World, put_ready};
use frang_base::ServerId;
use world_next::{at_gate, to_enter};

impl World {
    /// The number of the line that only the gate keeps from beginning at a server. `None` exactly where there is none.
    pub fn at_gate(&self, server: ServerId) -> Option<u32>
        ensures { result ≡ line_at_gate (core_of self.now) server.0 }
    {
        at_gate(&self.world, server)
    }

    /// The number of a server's next line that hasn't passed the gate yet, while it isn't over. `None` exactly where there is none.
    pub fn to_enter(&self, server: ServerId) -> Option<u32>
        ensures { result ≡ number_to_enter (core_of self.now) server.0 }
    {
        to_enter(&self.world, server)
    }

    /// The next line of a server, where it may enter, passes the gate. Where none may, the core is the same. Nothing is ready then.
    pub fn enter(&mut self, server: ServerId)
        ensures enters { (line : TheLine) → CanEnter (core_of self.old) server.0 line → core_of self.new ≡ record (core_of self.old) { passed = put (core_of self.old).passed line.number true } }
        ensures stays { number_to_enter (core_of self.old) server.0 ≡ None → core_of self.new ≡ core_of self.old }
        ensures ready { self.new.ready ≡ None }
    {
        put_ready(&mut self.ready, None);
        if let Some(number) = to_enter(&self.world, server) {
            self.world.pass(server, number);
        }
    }
}
