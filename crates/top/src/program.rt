/// The programs that the top call runs.
#[derive(Clone, Copy, Debug, PartialEq, Eq)]
pub enum Program {
    /// Runs the script of the source and prints what the machine says.
    Replay,
}
