// Which answer of a server is due.
ghost use Rattle.std.specs.Prelude.{◌≡◌, is_some, Option};
ghost use Rattle.std.specs.Option.{option_map};
ghost use Rattle.core_definitions.specs.Flights.{Flights, has_flights};
ghost use Rattle.core_definitions.specs.Recoveries.{Recovery};
ghost use Rattle.core_definitions.specs.Servers.{due, due_if, is_synced, own_answer};
ghost use Rattle.log_slots.specs.Reading.{log_rules};
ghost use Rattle.server_core.specs.Phases.{reply_of};

use crate::answers::PlainAnswer;
use crate::server::Server;
use crate::under::Under;
use frang_base::Op;

// An answer, where it is due.
fn due_if(is_due: bool, answer: PlainAnswer) -> Option<PlainAnswer>
    ensures { option_map reply_of result ≡ due_if is_due (reply_of answer) }
{
    if is_due { Some(answer) } else { None }
}

impl Server {
    /// Whether each log record and sector of file bytes of its mount is acknowledged.
    pub fn is_synced(&self) -> bool
        ensures { result ≡ is_synced self.now.server }
    {
        self.is_all_reached() && !self.cache.has_dirty_bytes()
    }

    // The own answer of a line, but of one over paths.
    fn own_answer(
        &self,
        under: &Under,
        operation: &Op,
        flies: bool,
        recovers: bool,
    ) -> Option<PlainAnswer>
        ensures { (flights : Flights) (recovery : Option Recovery) → has_flights flights self.now.id ≡ flies → is_some recovery ≡ recovers →
            option_map reply_of result ≡ own_answer log_rules flights self.now.id (record self.now.server { recovery = recovery }) under.now.under operation.now }
    {
        match operation {
            Op::Mount => {
                if self.is_off() {
                    under.mount_answer()
                } else {
                    None
                }
            }
            Op::Sync => due_if(self.is_up() && self.is_synced(), PlainAnswer::Ok),
            Op::Unmount => due_if(
                self.is_up() && self.is_clean(flies, recovers),
                PlainAnswer::Ok,
            ),
            Op::CrashAt { .. } | Op::CutAt { .. } | Op::Stall => {
                due_if(self.is_up(), PlainAnswer::Ok)
            }
            _ => None,
        }
    }

    /// The answer that is due of it, but to a line over paths; one that is fixed is due at once. `flies`: a write of its present mount is in flight; `recovers`: it recovers a log.
    pub fn due(&self, flies: bool, recovers: bool) -> Option<PlainAnswer>
        ensures { (flights : Flights) (recovery : Option Recovery) → has_flights flights self.now.id ≡ flies → is_some recovery ≡ recovers →
            option_map reply_of result ≡ due log_rules flights self.now.id (record self.now.server { recovery = recovery }) }
    {
        if !self.is_answering() {
            return None;
        }
        let under = self.under.as_ref()?;
        if let Some(fixed) = under.fixed() {
            return Some(fixed);
        }
        self.own_answer(under, under.operation()?, flies, recovers)
    }
}
