// The paths and targets that tests name.
ghost use Rattle.std.specs.Prelude.{◌≡◌, IfOk};
ghost use Rattle.std.specs.List.{list_all};
ghost use Rattle.frang_base.specs.Name.{is_name, is_target_byte};
ghost use Rattle.disk_definitions.specs.Allowed.{AreNames, IsTarget};

use frang_base::limits::TARGET_BYTES_MAX;
use frang_base::{Name, NoMemory, Path, Text, parse_path};
use std::alloc::Global;

/// A path that a test names. It refuses want of memory, and what is no path.
#[tactic(auto, using(crate::proofs::Asked::all_names))]
pub fn path_of(alloc: Global, text: &str) -> Result<Path, NoMemory>
    ensures { IfOk result AreNames }
{
    let Ok(path) = parse_path(alloc, text.as_bytes()) else {
        return Err(NoMemory);
    };
    if !are_names(path.as_slice()) {
        return Err(NoMemory);
    }
    Ok(path)
}

fn are_names(names: &[Name]) -> bool
    ensures { result ≡ list_all is_name names.now }
{
    names.iter().all(|name| is_name(name))
}

fn is_name(name: &Name) -> bool
    ensures { result ≡ is_name name.now }
{
    Name::of(name.as_slice()).is_some()
}

/// A target of a link. It refuses want of memory, and what is no target.
pub fn target_of(alloc: Global, text: &str) -> Result<Text, NoMemory>
    ensures { IfOk result IsTarget }
{
    let bytes = text.as_bytes();
    if bytes.is_empty() || bytes.len() > TARGET_BYTES_MAX || !are_target_bytes(bytes) {
        return Err(NoMemory);
    }
    Text::of(alloc, bytes)
}

fn are_target_bytes(bytes: &[u8]) -> bool
    ensures { result ≡ list_all is_target_byte bytes.now }
{
    bytes.iter().all(|byte| *byte > 32 && *byte != 127)
}
