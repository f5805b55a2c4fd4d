// What a server is.

/// What is settled at a server's doom for its death: whether all that it has in flight goes with it, and whether it will owe.
#[derive(Clone, Copy, Debug, PartialEq, Eq)]
pub struct Fate {
    pub loses: bool,
    pub owes: bool,
}

/// What a server is.
#[derive(Clone, Copy, Debug, PartialEq, Eq)]
pub enum Phase {
    /// Not mounted; its log holds nothing that isn't in place.
    Off,
    /// Mounted.
    Up,
    /// Mounted and stalled.
    Still,
    /// Its next event is its death.
    Doomed { fate: Fate },
    /// Dead, its log not recovered.
    Dead,
}

/// A server dies where the k-th next write would be issued; where it is a cut, what is in flight then is lost.
#[derive(Clone, Copy, Debug, PartialEq, Eq)]
pub struct Arming {
    pub k: u32,
    pub cuts: bool,
}
