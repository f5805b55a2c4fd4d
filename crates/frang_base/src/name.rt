// A name of a directory's entry. It lies in an array, so that it takes no memory.
ghost use Rattle.std.specs.Prelude.{◌≡◌, if◌then◌else◌, length, IsTrue};
ghost use Rattle.std.specs.List.{list_all};
ghost use Rattle.frang_base.specs.Name.{is_dots, is_name, is_name_byte};
ghost use Rattle.std.proofs.Common.{rules};
ghost use Rattle.std.specs.Cmp.{eq_by_cmp_equiv, partial_order_from_own_ties};
ghost use Rattle.std.specs.Cmp.Lexicographic.{slice_cmp, nat_list_cmp_total};
ghost use Rattle.std.specs.Cmp.Rules.{comparing};
ghost use Rattle.std.specs.Ordering.{nat_cmp, eq_by_cmp, as_partial_cmp};

use crate::limits::NAME_BYTES_MAX;
use std::alloc::AllocError;
use std::cmp::Ordering;
use std::marker::Model;

/// A name, seen as the list of its bytes: 1 to 64 of them, none at most 0x20, 0x7F or `/`, and not `.` or `..`. Names are
/// ordered by their bytes.
#[derive(Drop)]
pub struct Name {
    bytes: [u8; NAME_BYTES_MAX],
    len: usize,
}

impl Model for Name {
    ghost use Rattle.std.specs.Prelude.{List, ℕ, ◌≡◌, ◌≤◌, IsTrue, take, length};
    ghost use Rattle.frang_base.specs.Name.{is_name};
    ghost use Rattle.frang_base.specs.declared.limits.TheConstants.{NAME_BYTES_MAX};

    ghost Value = { List ℕ };

    ghost view = { λ n. take n.len n.bytes };

    ghost invariant = { λ n. (n.len ≤ NAME_BYTES_MAX) × IsTrue (is_name (take n.len n.bytes)) };
}

fn is_name_byte(byte: u8) -> bool
    ensures { result ≡ is_name_byte byte }
{
    byte > 32 && byte != b'/' && byte != 127
}

/// Whether all bytes are those that a name may have.
pub(crate) fn all_name_bytes(bytes: &[u8]) -> bool
    ensures { result ≡ list_all is_name_byte bytes.now }
{
    bytes.iter().all(|byte| is_name_byte(*byte))
}

fn is_name(bytes: &[u8]) -> bool
    ensures { result ≡ is_name bytes.now }
{
    !bytes.is_empty() && bytes.len() <= NAME_BYTES_MAX && all_name_bytes(bytes) && !is_dots(bytes)
}

fn is_dots(bytes: &[u8]) -> bool
    ensures { result ≡ is_dots bytes.now }
{
    match bytes {
        [a] => *a == b'.',
        [a, b] => *a == b'.' && *b == b'.',
        [_, _, _, ..] => false,
        [] => false,
    }
}

impl Name {
    /// The name of these bytes. `None` exactly where they aren't a name. It takes no memory.
    pub fn of(bytes: &[u8]) -> Option<Name>
        ensures { result ≡ (if is_name bytes.now then Some bytes.now else None) }
    {
        if !is_name(bytes) {
            return None;
        }
        let len = bytes.len();
        let mut held = [0; NAME_BYTES_MAX];
        held[..len].copy_from_slice(bytes);
        Some(Name { bytes: held, len })
    }

    /// The bytes of the name.
    pub fn as_slice(&self) -> &[u8]
        ensures { result.now ≡ self.now }
    {
        &self.bytes[..self.len]
    }

    /// The number of bytes. They are those of a name.
    pub fn len(&self) -> usize
        ensures len { result ≡ length self.now }
        ensures name { IsTrue (is_name self.now) }
    {
        self.len
    }

    /// Another name of the same bytes. It takes no memory.
    pub fn copy(&self) -> Name
        ensures { result ≡ self.now }
    {
        Name {
            bytes: self.bytes,
            len: self.len,
        }
    }
}

impl Clone for Name {
    ghost is_clone = { λ a b. a ≡ b };

    fn clone(&self) -> Result<Name, AllocError> {
        Ok(self.copy())
    }
}

impl PartialEq for Name {
    ghost eq = { λ a b. eq_by_cmp (slice_cmp nat_cmp) a b };

    ghost laws = { Prim.search (comparing, rules) };

    fn eq(&self, other: &Name) -> bool {
        self.cmp(other).is_eq()
    }
}

impl Eq for Name {
    ghost laws = { eq_by_cmp_equiv nat_list_cmp_total };
}

impl Ord for Name {
    ghost cmp = { slice_cmp nat_cmp };

    ghost total = { nat_list_cmp_total };

    ghost matches_partial_cmp = { Prim.search (comparing, rules) };

    ghost matches_eq = { Prim.search (comparing, rules) };

    fn cmp(&self, other: &Name) -> Ordering {
        self.as_slice().cmp(other.as_slice())
    }
}

impl PartialOrd for Name {
    ghost partial_cmp = { as_partial_cmp (slice_cmp nat_cmp) };

    ghost laws = { partial_order_from_own_ties (Prim.search (comparing, rules)) (Prim.search (comparing, rules)) };

    fn partial_cmp(&self, other: &Name) -> Option<Ordering> {
        Some(self.cmp(other))
    }
}
