//! Why a statement on an external unit is refused. Section 12 of the standard, ANSI X3.9-1978.

/// Why a statement on a unit was refused.
#[derive(Clone, Copy, Debug, PartialEq, Eq)]
pub enum UnitRefusal {
    /// The unit is not connected.
    NotConnected,
    /// No device of the drawer has the name.
    NotOffered,
    /// The unit is connected.
    Taken,
    /// The endfile record has been read or written.
    PastEnd,
    /// The device of the unit failed.
    Failed,
}
