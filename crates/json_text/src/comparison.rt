/// What is told of two values.
#[derive(Clone, Copy, Debug, PartialEq, Eq)]
pub enum Comparison {
    /// They are equal, part by part.
    Equal,
    /// They differ, and each number that was looked at is in range.
    Unequal,
    /// A number that was looked at, on either side, is no multiple of 10^-18 or isn't below 10^20.
    OutOfRange,
}
