/// One of the two files of the disk.
#[derive(Clone, Copy, Debug, PartialEq, Eq)]
pub enum Side {
    /// The first file.
    A,
    /// The second.
    B,
}
