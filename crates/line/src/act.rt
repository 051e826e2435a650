// What can be done to a line that alters it.

/// A put or a take.
// It has the shape of an `Option`, but its names say which act it is.
#[derive(Clone, Copy, PartialEq, Eq, Debug)]
pub enum Act {
    /// Take the oldest level.
    Take,
    /// Put this level.
    Put(u8),
}
