/// How calls are printed.
#[derive(Clone, Copy, Debug, PartialEq, Eq)]
pub enum Form {
    /// With the whole request.
    Full,
    /// By what they are of.
    Brief,
}
