// The members of a function by name.
ghost use Rattle.std.specs.Prelude.{◌≡◌};
ghost use Rattle.registry.specs.Faults.{member_name};

/// A member of a function as a registration writes it, or the function itself.
#[derive(Clone, Copy, Debug, PartialEq, Eq)]
pub enum Member {
    Function,
    RateLimit,
    Idempotency,
    Singleton,
    Timeouts,
    Id,
    Name,
    Triggers,
    Steps,
    Concurrency,
    Throttle,
    Debounce,
    BatchEvents,
    Priority,
    Cancel,
}

impl Member {
    /// The member's name in a registration, and `function` for the function itself.
    pub fn name(self) -> &'static str
        ensures { result.now ≡ member_name self }
    {
        match self {
            Member::Function => "function",
            Member::RateLimit => "rateLimit",
            Member::Idempotency => "idempotency",
            Member::Singleton => "singleton",
            Member::Timeouts => "timeouts",
            Member::Id => "id",
            Member::Name => "name",
            Member::Triggers => "triggers",
            Member::Steps => "steps",
            Member::Concurrency => "concurrency",
            Member::Throttle => "throttle",
            Member::Debounce => "debounce",
            Member::BatchEvents => "batchEvents",
            Member::Priority => "priority",
            Member::Cancel => "cancel",
        }
    }
}
