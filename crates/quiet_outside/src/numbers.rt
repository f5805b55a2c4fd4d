// The numbers of a soak's report.
ghost use Rattle.std.specs.Prelude.{◌≡◌, ◌-◌, ◌<◌, ◌^◌, []};
ghost use Rattle.quiet_outside.specs.SoakNumbers.{numbers_in, with_said, AreOf};
ghost use Rattle.quiet_outside.specs.SoakReports.{file_bytes, is_answer, is_file, is_ok};

use frang_base::{Reply, Said};

/// How many answers were said, how many of them were `ok`, how many files were told, and the sum of
/// their bytes.
#[derive(Clone, Copy)]
pub(crate) struct Numbers {
    pub(crate) answers: u64,
    pub(crate) oks: u64,
    pub(crate) files: u64,
    pub(crate) bytes: u128,
}

impl Numbers {
    /// Those of no line.
    pub(crate) fn none() -> Self
        ensures { result ≡ numbers_in [] }
    {
        Numbers {
            answers: 0,
            oks: 0,
            files: 0,
            bytes: 0,
        }
    }

    /// Counts a line. So far they are of fewer lines than `count` can be.
    pub(crate) fn count(&mut self, said: &Said, count: usize)
        requires counted { AreOf count self.old }
        requires room { count < 2 ^ 64 - 1 }
        ensures adds { self.new ≡ with_said self.old said.now }
        ensures small { file_bytes said.now < 2 ^ 32 }
    {
        self.answers += u64::from(is_answer(said));
        self.oks += u64::from(is_ok(said));
        self.files += u64::from(is_file(said));
        self.bytes += u128::from(file_bytes(said));
    }
}

fn is_answer(said: &Said) -> bool
    ensures { result ≡ is_answer said.now }
{
    matches!(said, Said::Answer { .. })
}

fn is_ok(said: &Said) -> bool
    ensures { result ≡ is_ok said.now }
{
    match said {
        Said::Answer { reply, .. } => matches!(reply, Reply::Ok),
        _ => false,
    }
}

fn is_file(said: &Said) -> bool
    ensures { result ≡ is_file said.now }
{
    match said {
        Said::Node { kind, .. } => *kind == 1,
        _ => false,
    }
}

fn file_bytes(said: &Said) -> u32
    ensures { result ≡ file_bytes said.now }
{
    match said {
        Said::Node { kind, size, .. } => { if *kind == 1 { *size } else { 0 } }
        _ => 0,
    }
}
