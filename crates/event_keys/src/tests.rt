ghost use Rattle.std.specs.Prelude.{◌≡◌, ◌<◌};

use crate::{EventTexts, FreshMatcher, ReadEvent};
use cel_parse::parse;
use expr::Expr;
use kinds::{Cell, Event, Function, Limit, Matcher, PathMatcher, Scope, Steps, Throttle};
use lists::{Bytes, Items, Memory};
use std::alloc::Global;
use std::marker::Brand;
use std::process::Abort;
use std::sync::ledger::{Blank, Ledger};
use std::test::Fail;

const FIRST: &str =
    r#"{"name":"x","data":{"u":1,"t":"a","b":true,"n":null,"l":[1],"o":{},"big":1e20,"far":700}}"#;

const FRESH: &str = r#"{"name":"y","data":{"k":1.0,"t":"a","n":null,"l":[1],"big":1e20}}"#;

/// What is asked, the expression, and the answer. Of a bucket it is the path, the value, and what the
/// fresh event has there.
const ROWS: &str = r#"holds => true
holds event.data.b => true
holds event.data.u == 1 => true
holds event.data.u => false
holds event.data.z => false
holds async.data.k == 1 => false
both async.data.k == event.data.u => true
both async.data.k == 2 => false
both async.data.z == 1 => false
first async.data.k == event.data.u => true
first async.data.k == 2 => false
second async.data.k == event.data.u => false
key =>
key event.data.t => sa
key event.data.u => n1
key 600.5 => n600.5
key event.data.b => true
key event.data.n => null
key event.data.l => !
key event.data.o => !
key event.data.z => !
key event.data.big => !
key 1 / 0 => !
shift => 0
shift 600 => 600
shift 600.5 => 0
shift event.data.far => 600
shift -event.data.far => -600
shift -600 => -600
shift -0.5 => 0
shift event.data.u => 1
shift 99999999999999999999 => 600
shift event.data.t => 0
shift event.data.z => 0
env event.data.t => env sa 2
env => env  2
env event.data.z => env ! 2
own event.data.u => own 0 n1 3, own 1 n1 2
start event.data.u => a-f 2 60000 1 by event.data.u n1
start => a-f 2 60000 1 
bucket => none
bucket async.data.k == 1 => .data.k n1 there n1
bucket event.data.u == async.data.k => .data.k n1 there n1
bucket async.data.k == 2 => .data.k n2 there n1
bucket async.name == "y" && async.data.k == 1 => .name sy there sy
bucket event.data.b && async.data.n == null => .data.n null there null
bucket async.data.k == async.data.t && async.data.t == event.data.t => .data.t sa there sa
bucket async.data.big == 1 => .data.big n1 there none
bucket async.data.l == "a" => .data.l sa there none
bucket async.data.z.y == "a" => .data.z.y sa there none
bucket async.data.k == event.data.none => none
bucket async.data.k == event.data.none && async.data.t == "a" => none
bucket async.data.k == event.data.big => none
bucket async.data.l == event.data.l => none
bucket async.data.l == [1] => none
bucket async == 1 => none
bucket (async.data.k == 1) => none
bucket (async).data.k == 1 => none
bucket async.data["k"] == 1 => none
bucket async.data.k != 1 => none
bucket async.data.k == 1 || true => none
"#;

/// Over events that nest too deep.
const DEEP: &str = r#"holds => true
holds true => false
both true => false
key 1 => !
shift 5 => 0
env event.data.t => env ! 2
bucket async.data.k == 1 => none
"#;

#[test]
fn rows(rt: HostRuntime) -> Result<(), Fail> {
    let first = ReadEvent::read(rt.alloc(), FIRST.as_bytes())?;
    let fresh = ReadEvent::read(rt.alloc(), FRESH.as_bytes())?;
    assert_eq!(rt; walk(&rt, rt.alloc(), ROWS, &first, &fresh)?, 61);
    let mut text = Bytes::new(rt.alloc());
    for _ in 0..65 {
        text.push(b'[')?;
    }
    let deep = ReadEvent::read(rt.alloc(), text.as_slice())?;
    assert_eq!(rt; walk(&rt, rt.alloc(), DEEP, &deep, &fresh)?, 7);
    Ok(())
}

/// Asks what each row asks, and gives the number of the rows.
fn walk<R: Abort>(
    rt: &R,
    alloc: Global,
    rows: &str,
    first: &ReadEvent<'_>,
    fresh: &ReadEvent<'_>,
) -> Result<u32, Fail> {
    let mut count: u32 = 0;
    for row in rows.lines() {
        let (asked, expected) = parted(row, " =>");
        let (verb, text) = parted(asked, " ");
        let shown = if text.is_empty() {
            shown(alloc, verb, None, first, fresh)?
        } else {
            let expr = parse(alloc, text.as_bytes())?;
            shown(alloc, verb, Some(&expr), first, fresh)?
        };
        assert_eq!(rt; (row, shown.as_slice()), (row, after_space(expected)));
        count = count.wrapping_add(1);
    }
    Ok(count)
}

/// What stands before the mark and behind it.
fn parted<'a>(text: &'a str, mark: &str) -> (&'a str, &'a str) {
    match text.split_once(mark) {
        Some(parts) => parts,
        None => (text, ""),
    }
}

fn after_space(text: &str) -> &[u8] {
    match text.as_bytes() {
        [b' ', rest @ ..] => rest,
        bytes => bytes,
    }
}

/// The answer to what is asked.
fn shown(
    alloc: Global,
    verb: &str,
    expr: Option<&Expr>,
    first: &ReadEvent<'_>,
    fresh: &ReadEvent<'_>,
) -> Result<Bytes, Memory> {
    match (verb, expr) {
        ("holds", _) => truth(alloc, first.holds(alloc, expr)?),
        ("both", Some(expr)) => both::<Brand>(alloc, Blank::new(1), expr, first, fresh),
        ("first", Some(expr)) => matched::<Brand>(alloc, Blank::new(1), expr, 1, fresh),
        ("second", Some(expr)) => matched::<Brand>(alloc, Blank::new(1), expr, 2, fresh),
        ("key", _) => first.key_value(alloc, expr),
        ("shift", _) => signed(alloc, first.priority_shift(alloc, expr)?),
        ("bucket", _) => bucket(alloc, expr, first, fresh),
        _ => of_function(alloc, verb, expr, first),
    }
}

fn both<L: Ledger>(
    alloc: Global,
    blank: Blank,
    expr: &Expr,
    first: &ReadEvent<'_>,
    fresh: &ReadEvent<'_>,
) -> Result<Bytes, Memory>
    requires name { blank.name ≡ L.name }
    requires parts { blank.parts ≡ L.parts }
    requires some { 0 < blank.parts }
{
    let mut steps = Steps::<L>::new(blank);
    truth(alloc, first.holds_both(alloc, expr, fresh, &mut steps)?)
}

/// Has one text, of the event with number 1.
#[derive(Drop)]
struct OneText<'a> {
    text: &'a [u8],
}

impl<'a> EventTexts for OneText<'a> {
    ghost use Rattle.std.specs.Prelude.{◌==◌, if◌then◌else◌, Some, None};

    ghost text_of = { λ texts number. if number == 1 then Some texts.text.now else None };

    fn text(&self, number: u64) -> Option<&[u8]> {
        if number == 1 { Some(self.text) } else { None }
    }
}

/// Asks the matcher of a fresh event.
fn matched<L: Ledger>(
    alloc: Global,
    blank: Blank,
    expr: &Expr,
    first: u64,
    fresh: &ReadEvent<'_>,
) -> Result<Bytes, Memory>
    requires name { blank.name ≡ L.name }
    requires parts { blank.parts ≡ L.parts }
    requires some { 0 < blank.parts }
{
    let texts = OneText {
        text: FIRST.as_bytes(),
    };
    let matcher = FreshMatcher {
        alloc,
        texts: &texts,
        fresh,
    };
    let mut steps = Steps::<L>::new(blank);
    truth(
        alloc,
        matcher.holds(expr, first, &nameless(alloc), &mut steps)?,
    )
}

fn nameless(alloc: Global) -> Event {
    Event {
        number: 0,
        name: Bytes::new(alloc),
        text: Bytes::new(alloc),
    }
}

fn of_function(
    alloc: Global,
    verb: &str,
    expr: Option<&Expr>,
    first: &ReadEvent<'_>,
) -> Result<Bytes, Memory> {
    let function = function(alloc, verb, expr)?;
    let mut text = Bytes::new(alloc);
    for cell in first.cells_of(alloc, &function)?.as_slice() {
        push_cell(&mut text, &cell.cell)?;
        text.extend_from_slice(b" ")?;
        text.push_decimal(cell.limit as u64)?;
    }
    if let Some(cell) = first.start_of(alloc, &function)? {
        push_cell(&mut text, cell.get())?;
    }
    Ok(text)
}

fn truth(alloc: Global, value: bool) -> Result<Bytes, Memory> {
    let text = if value {
        b"true".as_slice()
    } else {
        b"false".as_slice()
    };
    Bytes::from_slice(alloc, text)
}

fn signed(alloc: Global, number: i64) -> Result<Bytes, Memory> {
    let mut text = Bytes::new(alloc);
    if number < 0 {
        text.push(b'-')?;
    }
    text.push_decimal(number.unsigned_abs())?;
    Ok(text)
}

fn bucket(
    alloc: Global,
    expr: Option<&Expr>,
    first: &ReadEvent<'_>,
    fresh: &ReadEvent<'_>,
) -> Result<Bytes, Memory> {
    let Some(bucket) = first.bucket_of(alloc, expr)? else {
        return Bytes::from_slice(alloc, b"none");
    };
    let mut text = Bytes::new(alloc);
    for name in bucket.path.as_slice() {
        text.push(b'.')?;
        text.extend_from_slice(name.as_slice())?;
    }
    text.push(b' ')?;
    text.extend_from_slice(bucket.value.as_slice())?;
    text.extend_from_slice(b" there ")?;
    let matcher = FreshMatcher {
        alloc,
        texts: &OneText { text: &[] },
        fresh,
    };
    match matcher.value_at(&nameless(alloc), bucket.path.as_slice())? {
        Some(value) => text.extend_from_slice(value.as_slice())?,
        None => text.extend_from_slice(b"none")?,
    }
    Ok(text)
}

fn push_cell(text: &mut Bytes, cell: &Cell) -> Result<(), Memory> {
    match cell {
        Cell::Own { place, value, .. } => {
            text.extend_from_slice(if text.is_empty() { b"own " } else { b", own " })?;
            text.push_decimal(*place as u64)?;
            text.push(b' ')?;
            text.extend_from_slice(value.as_slice())
        }
        Cell::Env { value } => {
            text.extend_from_slice(b"env ")?;
            text.extend_from_slice(value.as_slice())
        }
        Cell::Account { value } => text.extend_from_slice(value.as_slice()),
        Cell::Throttle {
            function,
            limit,
            period,
            burst,
            key,
            value,
        } => {
            text.extend_from_slice(function.as_slice())?;
            push_number(text, *limit as u64)?;
            push_number(text, *period)?;
            push_number(text, *burst as u64)?;
            if let Some(key) = key {
                text.extend_from_slice(b" by ")?;
                text.extend_from_slice(key.as_slice())?;
            }
            text.push(b' ')?;
            text.extend_from_slice(value.as_slice())
        }
    }
}

fn push_number(text: &mut Bytes, number: u64) -> Result<(), Memory> {
    text.push(b' ')?;
    text.push_decimal(number)
}

/// With two limits of `env` or of its own, or with a throttle.
fn function(alloc: Global, verb: &str, key: Option<&Expr>) -> Result<Function, Memory> {
    let mut limits = Items::new(alloc);
    if verb == "env" {
        limits.push(limit(0, 3, Scope::Env, key)?)?;
        limits.push(limit(1, 2, Scope::Env, key)?)?;
    }
    if verb == "own" {
        limits.push(limit(0, 3, Scope::Own, key)?)?;
        limits.push(limit(1, 2, Scope::Own, key)?)?;
    }
    let throttle = if verb == "start" {
        Some(throttle(key)?)
    } else {
        None
    };
    Ok(Function {
        id: Bytes::from_slice(alloc, b"a-f")?,
        triggers: Items::new(alloc),
        host: Bytes::new(alloc),
        port: 80,
        path: Bytes::new(alloc),
        query: Bytes::new(alloc),
        retries: 0,
        limits,
        throttle,
        debounce: None,
        batch: None,
        priority: None,
        cancels: Items::new(alloc),
    })
}

fn limit(place: u8, limit: u32, scope: Scope, key: Option<&Expr>) -> Result<Limit, Memory> {
    Ok(Limit {
        place,
        limit,
        scope,
        key: copied(key)?,
    })
}

fn throttle(key: Option<&Expr>) -> Result<Throttle, Memory> {
    Ok(Throttle {
        limit: 2,
        period: 60_000,
        burst: 1,
        key: copied(key)?,
    })
}

fn copied(key: Option<&Expr>) -> Result<Option<Expr>, Memory> {
    match key {
        Some(expr) => Ok(Some(expr.clone()?)),
        None => Ok(None),
    }
}
