// Which copies are in use.

/// Which of two copies are in use. One always is.
#[derive(Clone, Copy, Debug, PartialEq, Eq)]
pub enum InUse {
    /// Both copies.
    Both,
    /// The first copy. The second is out.
    FirstAlone,
    /// The second copy. The first is out.
    SecondAlone,
}
