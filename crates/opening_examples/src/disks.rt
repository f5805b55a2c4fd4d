//! Disks that are read again. Each law is the contract of a public function.

ghost use Rattle.opening_examples.specs.Examples.{FreshDisksAreReadAgain, FreshImagesMayOpen, ZeroLogsHaveAnEnd};

use core_laws::the_opening_puts_the_disk;
use opening_laws::{each_start_is_an_opening, runs_go_on_from_what_was_left};

/// A fresh disk, as a run leaves it that does nothing, stands for the fresh tree once its logs are replayed, and is read again; so its image may be opened.
pub fn a_fresh_disk_is_read_again()
    ensures again { FreshDisksAreReadAgain }
    ensures image { FreshImagesMayOpen }
{
    the_opening_puts_the_disk();
    each_start_is_an_opening();
    runs_go_on_from_what_was_left();
}

/// Not all logs of every number are zero on it, of numbers behind the last one: slot 0 of the next would be the first segment. So a law that asks for zero logs is to ask for those of the servers.
pub fn zero_logs_have_an_end()
    ensures end { ZeroLogsHaveAnEnd }
{
    the_opening_puts_the_disk();
}
