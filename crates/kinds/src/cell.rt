// Cells that limits count in, and what is kept of them.
use crate::SharedItems;
use lists::Bytes;

/// What a limit counts for: a function, an environment or an account, and the value of the limit's key.
///
/// A value is empty where there is no key, `!` where the key fails or gives a list or an object, and else
/// `s` and the text, `n` and the number, `true`, `false` or `null`.
#[derive(Clone, PartialEq, Eq, PartialOrd, Ord, Drop)]
pub enum Cell {
    /// A concurrency limit of one function, by its place among the function's limits.
    Own {
        function: Bytes,
        place: u8,
        value: Bytes,
    },
    /// A concurrency limit of the environment.
    Env {
        value: Bytes,
    },
    /// A concurrency limit of the account.
    Account {
        value: Bytes,
    },
    /// A throttle, by its numbers (the period in milliseconds) and the text of its key.
    Throttle {
        function: Bytes,
        limit: u32,
        period: u64,
        burst: u32,
        key: Option<Bytes>,
        value: Bytes,
    },
}

/// A cell, and how many calls of it may be open at once.
#[derive(Clone, PartialEq, Eq, PartialOrd, Ord, Drop)]
pub struct CellLimit {
    /// What is counted.
    pub cell: Cell,
    /// From 1 to 1,000,000.
    pub limit: u32,
}

/// The concurrency cells of a run, each once. A run and its calls share them.
pub type CellLimits = SharedItems<CellLimit>;

/// An open issue, and the cells that it counts in.
#[derive(Drop)]
pub struct IssueEntry {
    /// The number of the call.
    pub issue: u64,
    /// Each cell once.
    pub cells: CellLimits,
}

/// A throttle's cell, and what its starts leave of it: the greatest `s + m * T` in milliseconds, over its
/// starts `s`, with `m` the starts from `s` on and `T` the period divided by the limit, rounded up.
#[derive(Drop)]
pub struct StartEntry {
    /// A throttle's cell.
    pub cell: Cell,
    /// In milliseconds since 1970.
    pub greatest: u64,
}
