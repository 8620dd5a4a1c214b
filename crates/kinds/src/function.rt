// Applications and their functions.
use expr::Expr;
use lists::{Bytes, Items};

/// What one registration says of an application.
#[derive(Drop)]
pub struct App {
    /// By which a later registration replaces this one.
    pub name: Bytes,
    /// In the order of the registration.
    pub functions: Items<Function>,
}

/// A function of an application. Periods and timeouts are milliseconds, from 1 to 366 days.
#[derive(Clone, PartialEq, Eq, Drop)]
pub struct Function {
    /// What callers and other functions name it by.
    pub id: Bytes,
    /// One to ten.
    pub triggers: Items<Trigger>,
    /// The host of the application's URL.
    pub host: Bytes,
    /// The port of the application's URL.
    pub port: u16,
    /// The path of the application's URL, with its `/` in front.
    pub path: Bytes,
    /// The query of the application's URL, without `?`, empty where there is none.
    pub query: Bytes,
    /// Attempts after the first, 0 to 20.
    pub retries: u8,
    /// At most two.
    pub limits: Items<Limit>,
    /// How often its runs start.
    pub throttle: Option<Throttle>,
    /// Whether its runs wait for quiet.
    pub debounce: Option<Debounce>,
    /// Whether its runs gather events.
    pub batch: Option<Batch>,
    /// How many seconds its runs go before others, from -600 to 600.
    pub priority: Option<Expr>,
    /// At most five.
    pub cancels: Items<CancelEntry>,
}

/// An event of this name starts a run where the condition is true, or absent.
#[derive(Clone, PartialEq, Eq, Drop)]
pub struct Trigger {
    /// The event's name.
    pub event: Bytes,
    /// Over the event alone.
    pub cond: Option<Expr>,
}

/// Whose calls a concurrency limit counts.
#[derive(Clone, Copy, Debug, PartialEq, Eq)]
pub enum Scope {
    /// The function's own.
    Own,
    /// All functions' with limits of the environment.
    Env,
    /// All functions' with limits of the account.
    Account,
}

/// A concurrency limit: so many calls of one key are open at once.
#[derive(Clone, PartialEq, Eq, Drop)]
pub struct Limit {
    /// Its place among the limits that were registered, 0 or 1.
    pub place: u8,
    /// From 1 to 1,000,000.
    pub limit: u32,
    /// Whose calls count.
    pub scope: Scope,
    /// Over the event that starts the run. Each value has a count of its own.
    pub key: Option<Expr>,
}

/// So many runs of one key start in a period, and up to `burst` at once.
#[derive(Clone, PartialEq, Eq, Drop)]
pub struct Throttle {
    /// From 1 to 1,000,000.
    pub limit: u32,
    /// In milliseconds.
    pub period: u64,
    /// From 1 to 1,000,000.
    pub burst: u32,
    /// Over the event that starts the run. Each value is throttled apart.
    pub key: Option<Expr>,
}

/// A run starts when no event of one key has come for a period, with the last of them.
#[derive(Clone, PartialEq, Eq, Drop)]
pub struct Debounce {
    /// In milliseconds.
    pub period: u64,
    /// The longest that the first event waits.
    pub timeout: Option<u64>,
    /// Over the event. Each value has a window of its own.
    pub key: Option<Expr>,
}

/// A run starts with up to `size` events of one key, or with those of the time out.
#[derive(Clone, PartialEq, Eq, Drop)]
pub struct Batch {
    /// From 1 to 100.
    pub size: u8,
    /// How long the first event waits, in milliseconds.
    pub timeout: u64,
    /// Over the event. Each value has a window of its own.
    pub key: Option<Expr>,
}

/// An event of this name cancels a run where the condition is true, or absent.
#[derive(Clone, PartialEq, Eq, Drop)]
pub struct CancelEntry {
    /// The event's name.
    pub event: Bytes,
    /// Over the run's first event and the one that cancels.
    pub cond: Option<Expr>,
    /// How long after its start a run can be cancelled so.
    pub timeout: Option<u64>,
}
