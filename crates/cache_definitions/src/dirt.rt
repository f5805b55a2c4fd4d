// What is kept of a dirty sector.

/// Of a dirty sector its mark, the last log number when it was last changed, and whether it is one of file bytes.
#[derive(Clone, Copy, Debug, PartialEq, Eq)]
pub struct Dirt {
    pub mark: u64,
    pub is_bytes: bool,
}
