// Laws of the definitions alone.
ghost use Rattle.kinds.specs.declared.function.App.{App};
ghost use Rattle.registry.specs.Apps.{read_app};
ghost use Rattle.registry.specs.Ranges.{IsFunctionRead};
ghost use Rattle.std.specs.List.{AllByRecursion};
ghost use Rattle.std.specs.Prelude.{ℕ, ◌≡◌, List, Ok};

/// The throttles, debounces and batches of each registration that isn't refused are within their ranges: limits
/// and bursts from 1 to 1,000,000, periods and timeouts from 1 ms to 366 days, sizes from 1 to 100.
pub fn read_functions_are_in_range()
    ensures { (body : List ℕ) (app : App) → read_app body ≡ Ok app
        → AllByRecursion IsFunctionRead app.functions }
{}
