// The public call: a registration, or its first fault.
ghost use Rattle.lists.specs.Starved.{OrStarved};
ghost use Rattle.std.specs.Prelude.{◌≡◌, [], option_map};
ghost use Rattle.serde_json.specs.View.{items_view, view};
ghost use Rattle.registry.specs.Apps.{app_in, app_of, functions_in, read_app, value_of, viewed};
ghost use Rattle.registry.specs.Functions.{function_of};
ghost use Rattle.registry.specs.Members.{found_or, read_behind};
ghost use Rattle.registry.specs.declared.fault.RegisterFault.TheVariants.{Memory, NotJson};

use crate::RegisterFault;
use crate::function::function_of;
use crate::part::{array_in, has_count, text_in};
use kinds::{App, Function};
use lists::{Bytes, Items};
use serde_json::Value;
use serde_json::error::Category;
use std::alloc::Global;

/// The greatest number of functions in a registration.
const MOST_FUNCTIONS: usize = 256;

/// Reads the body of a registration. It is refused whole, for its first fault.
#[tactic(auto, unfolding(crate::specs::Apps::read_app))]
pub fn read_app(alloc: Global, body: &[u8]) -> Result<App, RegisterFault>
    ensures { OrStarved Memory (read_app body.now) result }
{
    let value = value_of(alloc, body)?;
    app_of(alloc, &value)
}

/// The JSON value that a body is.
fn value_of(alloc: Global, body: &[u8]) -> Result<Value, RegisterFault>
    ensures { OrStarved Memory (found_or NotJson (value_of body.now)) (viewed result) }
{
    match Value::from_slice(alloc, body) {
        Ok(value) => Ok(value),
        Err(error) => match error.classify() {
            Category::Memory => Err(RegisterFault::Memory),
            _ => Err(RegisterFault::NotJson),
        },
    }
}

fn app_of(alloc: Global, value: &Value) -> Result<App, RegisterFault>
    ensures { OrStarved Memory (app_of (view value.now)) result }
{
    if !value.is_object() {
        return Err(RegisterFault::NotJson);
    }
    app_in(alloc, value)
}

#[tactic(auto, unfolding(crate::specs::Apps::app_in))]
fn app_in(alloc: Global, value: &Value) -> Result<App, RegisterFault>
    ensures { OrStarved Memory (app_in (view value.now)) result }
{
    let Some(name) = text_in(value, "appName") else {
        return Err(RegisterFault::NoAppName);
    };
    let Some(items) = functions_in(value) else {
        return Err(RegisterFault::NoFunctions);
    };
    let functions = functions_from(alloc, items)?;
    let name = Bytes::from_slice(alloc, name.as_bytes())?;
    Ok(App { name, functions })
}

/// The items of `functions`, where it is an array of at most 256.
fn functions_in(value: &Value) -> Option<&[Value]>
    ensures { option_map (λ items. items_view items.now) result ≡ functions_in (view value.now) }
{
    let items = array_in(value, "functions")?;
    if has_count(items, 0, MOST_FUNCTIONS) {
        Some(items)
    } else {
        None
    }
}

fn functions_from(alloc: Global, items: &[Value]) -> Result<Items<Function>, RegisterFault>
    ensures { OrStarved Memory (read_behind function_of [] (items_view items.now)) result }
{
    let mut functions = Items::new(alloc);
    for item in items {
        let function = function_of(alloc, functions.as_slice(), item)?;
        functions.push(function)?;
    }
    Ok(functions)
}
