// What registrations in turn make of the functions.
use functions::{FunctionEntry, Functions, Registered};
use kinds::{App, Function};
use lists::{Bytes, Items, Memory};
use std::alloc::Global;
use std::test::Fail;

/// A function that has nothing but an id.
fn function(alloc: Global, id: u8) -> Result<Function, Memory> {
    Ok(Function {
        id: Bytes::from_slice(alloc, &[id])?,
        triggers: Items::new(alloc),
        host: Bytes::new(alloc),
        port: 80,
        path: Bytes::new(alloc),
        query: Bytes::new(alloc),
        retries: 3,
        limits: Items::new(alloc),
        throttle: None,
        debounce: None,
        batch: None,
        priority: None,
        cancels: Items::new(alloc),
    })
}

fn app(alloc: Global, name: u8, ids: [u8; 2]) -> Result<App, Memory> {
    let mut functions = Items::new(alloc);
    functions.push(function(alloc, ids[0])?)?;
    functions.push(function(alloc, ids[1])?)?;
    Ok(App {
        name: Bytes::from_slice(alloc, &[name])?,
        functions,
    })
}

/// Versions are 1 to 9: their digits in a row.
fn digits(entries: &[FunctionEntry]) -> u64 {
    let mut digits = 0_u64;
    for entry in entries {
        digits = digits.wrapping_mul(10).wrapping_add(entry.version);
    }
    digits
}

/// What a registration leaves: the versions that are current and those that no longer are, how many were given so far,
/// and whether anything changed.
fn told(registered: &Registered) -> (u64, u64, u64, bool) {
    (
        digits(registered.functions.as_slice()),
        digits(registered.replaced.as_slice()),
        registered.versions,
        registered.modified,
    )
}

#[test]
fn registrations_in_turn(rt: HostRuntime) -> Result<(), Fail> {
    let alloc = rt.alloc();
    let mut functions = Functions::empty(alloc);
    let rows = [
        (b'x', *b"ab", 0_u8, (12, 0, 2, true)),
        (b'x', *b"ab", 2, (12, 0, 2, false)),
        (b'x', *b"ca", 2, (13, 2, 3, true)),
        (b'y', *b"da", 3, (345, 1, 5, true)),
        (b'x', *b"de", 5, (567, 34, 7, true)),
    ];
    for (name, ids, versions, expected) in rows {
        let app = app(alloc, name, ids)?;
        let count = functions.current_after(&app);
        let registered = functions.register(alloc, app, u64::from(versions))?;
        assert_eq!(rt; registered.functions.as_slice().len() as u64, count);
        assert_eq!(rt; told(&registered), expected);
        functions = registered.functions;
    }
    Ok(())
}
