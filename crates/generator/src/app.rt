// The registration of one function, two calls of which run for a user at a time.
ghost use Rattle.std.specs.Prelude.{◌≡◌, ◌∷◌, [], IfOk, None, codes};
ghost use Rattle.generator.specs.Inputs.{function, registration, user_limit};

use cel_parse::parse;
use expr::Expr;
use kinds::{App, Function, Input, Limit, Scope, Trigger};
use lists::{Bytes, Items, Memory};
use std::alloc::Global;

/// The first input.
pub fn registration(alloc: Global) -> Result<Input, Memory>
    ensures { IfOk result (λ input. input ≡ registration) }
{
    let functions = only(alloc, function(alloc)?)?;
    let name = Bytes::from_slice(alloc, b"a")?;
    Ok(Input::Register {
        at: 0,
        app: App { name, functions },
    })
}

fn function(alloc: Global) -> Result<Function, Memory>
    ensures { IfOk result (λ f. f ≡ function) }
{
    Ok(Function {
        id: Bytes::from_slice(alloc, b"a-f")?,
        triggers: only(alloc, trigger(alloc)?)?,
        host: Bytes::from_slice(alloc, b"127.0.0.1")?,
        port: 9,
        path: Bytes::from_slice(alloc, b"/api")?,
        query: Bytes::from_slice(alloc, b"fnId=a-f&stepId=step")?,
        retries: 4,
        limits: only(alloc, user_limit(alloc)?)?,
        throttle: None,
        debounce: None,
        batch: None,
        priority: None,
        cancels: Items::new(alloc),
    })
}

fn trigger(alloc: Global) -> Result<Trigger, Memory>
    ensures { IfOk result (λ trigger. (trigger.event ≡ codes "x") × (trigger.cond ≡ None)) }
{
    Ok(Trigger {
        event: Bytes::from_slice(alloc, b"x")?,
        cond: None,
    })
}

fn user_limit(alloc: Global) -> Result<Limit, Memory>
    ensures { IfOk result (λ limit. limit ≡ user_limit) }
{
    Ok(Limit {
        place: 0,
        limit: 2,
        scope: Scope::Own,
        key: Some(user_key(alloc)?),
    })
}

fn user_key(alloc: Global) -> Result<Expr, Memory>
    ensures { IfOk result (λ key. key ≡ codes "event.data.u") }
{
    match parse(alloc, b"event.data.u") {
        Ok(key) => Ok(key),
        Err(_) => Err(Memory),
    }
}

// A list of one.
fn only<T: Drop>(alloc: Global, item: T) -> Result<Items<T>, Memory>
    ensures { IfOk result (λ items. items ≡ item ∷ []) }
{
    let mut items = Items::new(alloc);
    items.push(item)?;
    Ok(items)
}
