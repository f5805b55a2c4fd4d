// What an operation asks.
ghost use Rattle.std.specs.Prelude.{◌≡◌};
ghost use Rattle.tree_definitions.specs.Apply.{is_path_op};
ghost use Rattle.tree_definitions.specs.Touched.{is_sync, is_unmount};
ghost use Rattle.tree_definitions.specs.Transcript.{is_crash, is_mount};

use frang_base::Op;

/// Whether it goes over paths.
pub fn is_path_op(operation: &Op) -> bool
    ensures { result ≡ is_path_op operation.now }
{
    !matches!(
        operation,
        Op::Sync
            | Op::Mount
            | Op::Unmount
            | Op::Crash
            | Op::CrashAt { .. }
            | Op::CutAt { .. }
            | Op::Stall
    )
}

/// Whether it asks a mount.
pub fn is_mount(operation: &Op) -> bool
    ensures { result ≡ is_mount operation.now }
{
    matches!(operation, Op::Mount)
}

/// Whether it asks an unmount.
pub fn is_unmount(operation: &Op) -> bool
    ensures { result ≡ is_unmount operation.now }
{
    matches!(operation, Op::Unmount)
}

/// Whether it asks a sync.
pub fn is_sync(operation: &Op) -> bool
    ensures { result ≡ is_sync operation.now }
{
    matches!(operation, Op::Sync)
}

/// Whether it is a crash at once.
pub fn is_crash(operation: &Op) -> bool
    ensures { result ≡ is_crash operation.now }
{
    matches!(operation, Op::Crash)
}
