ghost use Rattle.std.specs.Prelude.{◌≡◌, ◌<◌};

use cel_eval::{EvalFault, Value, cell_value, eval};
use cel_parse::parse;
use expr::Expr;
use json_text::Tree;
use kinds::Steps;
use lists::{Bytes, Memory};
use std::alloc::Global;
use std::marker::Brand;
use std::process::Abort;
use std::sync::ledger::{Blank, Ledger};
use std::test::Fail;

/// Over the first event alone. A row is an expression and its value, or the name of its fault.
const WORKED: &str = r#"0.1 + 0.2 == 0.3 => true
7 / 2 => n3
-7 % 2 => n-1
1.5 * 2 => BadType
1 / 0 => ZeroDivisor
event.data.z == 1 || true => true
event.data.z => NoField
has(event.data.z) => false
99999999999999999999 + 1 => Range
size("é") => n1
"1" == 1 => false
"#;

/// Over the rich event alone, without a fresh one.
const ALONE: &str = r#"async => NoField
async.data => NoField
async["data"] => NoField
has(async.data) => NoField
async == event => NoField
event == async => NoField
size(async) => NoField
[async] => NoField
async ? 1 : 2 => NoField
false && async => false
async && false => false
async.data.k == 1 || true => true
async.data.k == 1 && true => NoField
true ? 1 : async => n1
"a" in async => NoField
event => object
"#;

/// Over both events, by the rows of the table of values.
const ROWS: &str = r#"// values
event => object
async => object
null => null
true => true
007 => n7
1.50 => n1.5
99999999999999999999.999999999999999999 => n99999999999999999999.999999999999999999
'it' => sit
"a\u0062" => sab
("a") => sa
[] => list
[1, "a"] => list
[1, 1 / 0, event.data.z] => ZeroDivisor
[event.data.z, 1 / 0] => NoField
[event.data.big] => Range
[event.data.wide] => list
// members
event.name => sx
event["name"] => sx
event.data.u => n1
event.data["a.b"] => n7
event.data[""] => n8
event.data.dup => stwo
event.data.n => null
event.data.b => true
event.data.f => false
event.data.l => list
event.data.o => object
event.data.s => sb"é
event.data.esc => n5
event.data["esc"] => n5
event.data["b" + "b"] => n6
event.data.z => NoField
event["z"] => NoField
event.data.o.b[0] => true
event.name.x => BadType
event.data.l.a => BadType
event.data.l["a"] => BadType
event.data.u["a"] => BadType
event.data.n.a => BadType
"abc".a => BadType
[1].a => BadType
event.data.z.y => NoField
event.data.z[1 / 0] => NoField
// items
event.data.l[0] => n1
event.data.l[1] => sa
event.data.l[1.0] => sa
event.data.l[3] => list
event.data.l[4] => object
event.data.l[4].k => n1
event.data.l[event.data.u] => sa
event.data.l[5] => NoField
event.data.l[-1] => NoField
event.data.l[0.5] => BadType
event.data.l[-0.5] => BadType
event.data.l[true] => BadType
event.data.l[null] => BadType
event.data.l[[0]] => BadType
event.data.l[1 / 0] => ZeroDivisor
event.data.o[0] => BadType
event.data.o[null] => BadType
"abc"[0] => BadType
[1, 2, 3][2] => n3
[[1], [2]][1][0] => n2
[1][1] => NoField
[][0] => NoField
[1][99999999999999999999] => NoField
// numbers of an event
event.data.big => Range
event.data.tiny => Range
event.data.neg => n-2.5
event.data.exp => n150
event.data.zero => n0
async.data.k => n1
event.data.wide[0] => Range
event.data.wide[1] => n1
event.data.again.z => n3
event.data.far => object
event.data.far.x[0] => Range
// signs
!true => false
!event.data.f => true
!!event.data.b => true
!1 => BadType
!null => BadType
!"a" => BadType
!event => BadType
![] => BadType
!event.data.z => NoField
-1 => n-1
--1 => n1
-event.data.neg => n2.5
-99999999999999999999.999999999999999999 => n-99999999999999999999.999999999999999999
-"a" => BadType
-true => BadType
-null => BadType
-event.data.l => BadType
-event.data.big => Range
// sums and differences
1 + 2 => n3
0.1 + 0.2 => n0.3
99999999999999999999 + 0.999999999999999999 => n99999999999999999999.999999999999999999
99999999999999999999.999999999999999999 + 0.000000000000000001 => Range
"a" + "b" => sab
"" + "" => s
event.data.s + event.data.t => sb"éabc
1 + "a" => BadType
"a" + 1 => BadType
true + true => BadType
null + null => BadType
[1] + [2] => BadType
event + event => BadType
event.data.z + 1 / 0 => NoField
1 / 0 + event.data.z => ZeroDivisor
3 - 5 => n-2
0.3 - 0.1 => n0.2
1 - 2 - 3 => n-4
-99999999999999999999 - 1 => Range
"a" - "b" => BadType
1 - true => BadType
event.data.z - 1 => NoField
// whole numbers
6 * -7 => n-42
2.0 * 3.0 => n6
0 * 99999999999999999999 => n0
99999999999999999999 * -1 => n-99999999999999999999
10000000000 * 9999999999 => n99999999990000000000
10000000000 * 10000000000 => Range
2 * 1.5 => BadType
10000000000.5 * 10000000000 => BadType
null * 2 => BadType
-7 / 2 => n-3
7 / -2 => n-3
-7 / -2 => n3
7.0 / 2.0 => n3
7 % 2 => n1
7 % -2 => n1
-7 % -2 => n-1
6 % 3 => n0
1 % 0 => ZeroDivisor
0 / 0 => ZeroDivisor
1.5 / 0 => BadType
1.5 % 0 => BadType
1 / 0.5 => BadType
5 % 1.5 => BadType
"a" / 0 => BadType
1 / "a" => BadType
1 / 0 * 1.5 => ZeroDivisor
1.5 * (1 / 0) => ZeroDivisor
2 + 3 * 4 => n14
// order
1 < 2 => true
1 < 1 => false
1 <= 1.0 => true
2 > 1.5 => true
1 > 1 => false
-1 >= 0 => false
1 >= 1 => true
"a" < "b" => true
"B" < "a" => true
"a" < "aa" => true
"" < "a" => true
"10" < "9" => true
"é" > "z" => true
"a" <= "a" => true
"b" >= "bb" => false
event.data.t < async.data.t => true
1 < "2" => BadType
"1" < 2 => BadType
true < false => BadType
null <= null => BadType
[1] < [2] => BadType
event >= event => BadType
1 < event.data.big => Range
event.data.z > 1 / 0 => NoField
1 / 0 > event.data.z => ZeroDivisor
1 / 0 >= event.data.z => ZeroDivisor
// equality
async.data.k == event.data.u => true
1 == 1.0 => true
1 != 1.0 => false
1 == 2 => false
"a" == "a" => true
"a" == "b" => false
event.data.s == 'b"é' => true
"1" != 1 => true
null == null => true
null == false => false
true == true => true
true != false => true
true == 1 => false
event.data.b == "true" => false
1 == 1 == true => true
event.data.dup == "two" => true
event.data.o == async.data.o => true
event.data.o != async.data.o => false
event.data.o == event.data.empty => false
event.data.l == async.data.l => true
event.data.l[4] == async.data.l[4] => true
event.data.empty == event.data.none => false
event.data.none == [] => true
[] == [] => true
[] == "" => false
[] == null => false
[1, 2] == [1.0, 2] => true
[1, 2] == [2, 1] => false
[1] == [1, 2] => false
[1, 2] == [1] => false
[[1], "a"] == [[1.0], "a"] => true
[null] == [false] => false
[event.data.o] == [async.data.o] => true
[1, "a", null, [2], event.data.l[4]] == event.data.l => true
event.data.l == [1, "a", null, [2], event.data.l[4]] => true
[1, "a"] == event.data.l => false
event == event => Range
event.data.wide == [1] => Range
[1] == event.data.wide => Range
[event.data.wide] == [] => Range
[event.data.far] != [1] => Range
event.data.far == event.data.o => Range
event.data.o == event.data.far => Range
event.data.far == event.data.l => false
event.data.wide == 1 => false
"a" != event.data.wide => true
event.data.again == event.data.again => true
event.data.again == event.data.o => false
event.data.big == 1 => Range
event.data.z == 1 => NoField
1 != event.data.z => NoField
event.data.z == 1 / 0 => NoField
1 / 0 == event.data.z => ZeroDivisor
// in
1 in [1, 2] => true
3 in [1, 2] => false
1.0 in [1] => true
"1" in [1] => false
1 in [] => false
"a" in event.data.l => true
null in event.data.l => true
[2.0] in event.data.l => true
event.data.l[4] in event.data.l => true
true in event.data.l => false
event.data.o in [async.data.o] => true
"two" in [event.data.dup] => true
1 in event.data.wide => Range
"x" in event.data.wide => Range
event.data.wide in [1] => Range
event.data.far in [] => Range
[event.data.far] in [1] => Range
"a" in event.data.o => true
"c" in event.data.o => false
1 in event.data.o => BadType
true in event.data.o => BadType
event.data.far in event.data.o => BadType
"big" in event.data => true
"" in event.data => true
"a" in "abc" => BadType
1 in 1 => BadType
1 in null => BadType
event.data.wide in 1 => BadType
event.data.z in [1] => NoField
1 in event.data.z => NoField
event.data.z in 1 / 0 => NoField
// and, or
true && true => true
true && false => false
false && 1 / 0 => false
1 / 0 && false => false
true && 1 / 0 => ZeroDivisor
1 / 0 && true => ZeroDivisor
event.data.z && 1 / 0 => NoField
1 / 0 && event.data.z => ZeroDivisor
1 && false => false
false && "a" => false
1 && true => BadType
true && 1 => BadType
1 && 1 / 0 => BadType
1 / 0 && 1 => ZeroDivisor
null && null => BadType
false || false => false
false || true => true
true || 1 / 0 => true
1 / 0 || true => true
1 || true => true
false || 1 => BadType
1 || false => BadType
"a" || 1 / 0 => BadType
1 / 0 || "a" => ZeroDivisor
false || event.data.z => NoField
event.data.z || 1 / 0 => NoField
true || false && false => true
false && (1 / 0 || 1 / 0) || event.data.b => true
// choices
true ? 1 : 1 / 0 => n1
false ? 1 / 0 : 2 => n2
true ? 1 / 0 : 2 => ZeroDivisor
false ? 1 : event.data.z => NoField
event.data.b ? "y" : 2 => sy
false ? 1 : true ? 2 : 3 => n2
1 ? 2 : 3 => BadType
null ? 2 : 3 => BadType
event.data.z ? 1 / 0 : 2 => NoField
// has
has(event.data.u) => true
has(event.data.n) => true
has(event.data.big) => true
has(event.data.o.c) => false
has(event.data.z.y) => NoField
has(event.data.u.y) => BadType
has(event.data.l.a) => BadType
has("abc".a) => BadType
// size
size("") => n0
size("a\u00e9\n") => n3
size(event.data.s) => n3
size("a" + "bc") => n3
size(event.data.l) => n5
size(event.data.none) => n0
size(event.data.wide) => n2
size(event.data.o) => n2
size(event.data.again) => n2
size([1, [2, 3]]) => n2
size([]) => n0
size(1) => BadType
size(true) => BadType
size(null) => BadType
size(event.data.z) => NoField
// string
string("a") => sa
string("a" + "b") => sab
string(event.data.s) => sb"é
string(1.50) => s1.5
string(-0.5) => s-0.5
string(007) => s7
string(event.data.exp) => s150
string(true) => strue
string(event.data.f) => sfalse
string(null) => BadType
string(event) => BadType
string([1]) => BadType
string(event.data.big) => Range
string(1 / 0) => ZeroDivisor
// methods
"abc".startsWith("ab") => true
"abc".startsWith("b") => false
"abc".endsWith("bc") => true
"abc".endsWith("b") => false
"abc".contains("b") => true
"abab".contains("bab") => true
"a".contains("ab") => false
"".contains("") => true
"abc".contains("") => true
event.data.t.startsWith(event.data.t) => true
event.data.s.endsWith("é") => true
"a".startsWith(1) => BadType
"a".endsWith(null) => BadType
event.data.l.contains(1) => BadType
event.data.u.contains("1") => BadType
event.data.z.contains(1 / 0) => NoField
"a".contains(event.data.z) => NoField
event.data.u.contains(1 / 0) => ZeroDivisor
"#;

const FIRST: &str = "{\"name\":\"x\",\"data\":{\"u\":1},\"id\":\"evt-1\",\"ts\":1000}";

/// Members of every kind, numbers out of range, names that come twice, and texts and names with escapes.
const RICH: &str =
    "{\"name\":\"x\",\"data\":{\"u\":1,\"t\":\"abc\",\"s\":\"b\\\"\\u00e9\",\"b\":true,\"f\":false,\"n\":null,\
    \"l\":[1,\"a\",null,[2],{\"k\":1.0}],\"o\":{\"a\":1,\"b\":[true]},\"big\":1e20,\"tiny\":1e-19,\"neg\":-2.5,\
    \"exp\":1.5e2,\"zero\":-0.0,\"wide\":[1e20,1],\"far\":{\"x\":[1e300]},\"again\":{\"z\":1e20,\"z\":3},\
    \"dup\":1,\"dup\":\"two\",\"none\":[],\"empty\":{},\"e\\u0073c\":5,\"b\\u0062\":6,\"a.b\":7,\"\":8},\
    \"id\":\"evt-1\",\"ts\":1000}";

const FRESH: &str =
    "{\"name\":\"y\",\"data\":{\"k\":1.0,\"t\":\"abd\",\"o\":{\"b\":[true],\"a\":1e0},\
    \"l\":[1.0,\"\\u0061\",null,[2],{\"k\":1}]},\"id\":\"evt-2\",\"ts\":2000}";

#[test]
fn rows(rt: HostRuntime) -> Result<(), Fail> {
    let first = Tree::read(rt.alloc(), FIRST.as_bytes())?;
    let rich = Tree::read(rt.alloc(), RICH.as_bytes())?;
    let fresh = Tree::read(rt.alloc(), FRESH.as_bytes())?;
    let worked = walk(&rt, rt.alloc(), WORKED, &first, None)?;
    let alone = walk(&rt, rt.alloc(), ALONE, &rich, None)?;
    let both = walk(&rt, rt.alloc(), ROWS, &rich, Some(&fresh))?;
    assert_eq!(rt; (worked, alone, both), (11, 16, 347));
    Ok(())
}

/// Evaluates the expression of each row, and gives the number of the rows. A line without ` => ` is a heading.
fn walk<R: Abort>(
    rt: &R,
    alloc: Global,
    rows: &str,
    event: &Tree<'_>,
    fresh: Option<&Tree<'_>>,
) -> Result<u32, Fail> {
    let mut count: u32 = 0;
    for row in rows.lines() {
        if let Some((text, expected)) = row.split_once(" => ") {
            let expr = parse(alloc, text.as_bytes())?;
            let shown = shown::<Brand>(alloc, Blank::new(1), &expr, event, fresh)?;
            assert_eq!(rt; (text, shown.as_slice()), (text, expected.as_bytes()));
            count = count.wrapping_add(1);
        }
    }
    Ok(count)
}

/// The name of a fault, `list` and `object`, and else the text of the value as a key.
fn shown<L: Ledger>(
    alloc: Global,
    blank: Blank,
    expr: &Expr,
    event: &Tree<'_>,
    fresh: Option<&Tree<'_>>,
) -> Result<Bytes, Memory>
    requires name { blank.name ≡ L.name }
    requires parts { blank.parts ≡ L.parts }
    requires some { 0 < blank.parts }
{
    let mut steps = Steps::<L>::new(blank);
    match eval(alloc, expr, event, fresh, &mut steps) {
        Ok(Value::List) => Bytes::from_slice(alloc, b"list"),
        Ok(Value::Object) => Bytes::from_slice(alloc, b"object"),
        Ok(value) => cell_value(alloc, &Ok(value)),
        Err(EvalFault::NoField) => Bytes::from_slice(alloc, b"NoField"),
        Err(EvalFault::BadType) => Bytes::from_slice(alloc, b"BadType"),
        Err(EvalFault::Range) => Bytes::from_slice(alloc, b"Range"),
        Err(EvalFault::ZeroDivisor) => Bytes::from_slice(alloc, b"ZeroDivisor"),
        Err(EvalFault::Memory) => Err(Memory),
    }
}

/// Joined texts have at most 65,536 bytes.
#[test]
fn longest_text(rt: HostRuntime) -> Result<(), Fail> {
    let mut text = Bytes::from_slice(rt.alloc(), b"{\"w\":\"")?;
    for _ in 0..8192 {
        text.push(b'w')?;
    }
    text.extend_from_slice(b"\"}")?;
    let event = Tree::read(rt.alloc(), text.as_slice())?;
    assert_eq!(rt; walk(&rt, rt.alloc(), LONG, &event, None)?, 5);
    Ok(())
}

/// Over an event whose `w` has 8,192 bytes.
const LONG: &str =
    r#"size(event.w + event.w + event.w + event.w + event.w + event.w + event.w + event.w) => n65536
event.w + event.w + event.w + event.w + event.w + event.w + event.w + event.w + "a" => Range
event.w + event.w + event.w + event.w + event.w + event.w + event.w + event.w + 1 => BadType
"a" + (event.w + event.w + event.w + event.w + event.w + event.w + event.w + event.w) => Range
size("" + (event.w + event.w + event.w + event.w + event.w + event.w + event.w + event.w)) => n65536
"#;

#[test]
fn key_texts(rt: HostRuntime) -> Result<(), Fail> {
    let number = cell_value(rt.alloc(), &Ok(Value::Number(-1_500_000_000_000_000_000)))?;
    assert_eq!(rt; number.as_slice(), b"n-1.5".as_slice());
    let text = Value::Text(Bytes::from_slice(rt.alloc(), b"a b")?);
    assert_eq!(rt;
        cell_value(rt.alloc(), &Ok(text))?.as_slice(),
        b"sa b".as_slice()
    );
    assert_eq!(rt;
        cell_value(rt.alloc(), &Ok(Value::Bool(true)))?.as_slice(),
        b"true".as_slice()
    );
    assert_eq!(rt;
        cell_value(rt.alloc(), &Ok(Value::Null))?.as_slice(),
        b"null".as_slice()
    );
    assert_eq!(rt;
        cell_value(rt.alloc(), &Ok(Value::List))?.as_slice(),
        b"!".as_slice()
    );
    assert_eq!(rt;
        cell_value(rt.alloc(), &Err(EvalFault::NoField))?.as_slice(),
        b"!".as_slice()
    );
    Ok(())
}
