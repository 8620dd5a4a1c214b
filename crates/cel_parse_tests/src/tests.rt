use cel_parse::{ParseFault, parse};
use std::alloc::Global;
use std::test::Fail;

/// Texts, each with the byte at which no expression goes on so.
const FAULTS: &str = r#" => 0
  => 1
1. => 2
event. => 6
event.data. => 11
( => 1
) => 0
() => 1
[ => 1
[1 => 2
[1, => 3
[1,] => 3
[]] => 2
] => 0
[,1] => 1
event[ => 6
event[] => 6
event[1 => 7
event[1,2] => 7
1 2 => 2
event event => 6
'a' 'b' => 4
foo => 0
foo( => 0
foo(1) => 0
in => 0
in(1) => 0
true(1) => 0
event.foo( => 6
event.foo($ => 6
size => 4
size 1 => 5
size + 1 => 5
size( => 5
size() => 0
size(1 => 6
size(1, => 0
size(1,2) => 0
string() => 0
1 + size() => 4
[size(1, 2)] => 1
size(size(1,2)) => 5
size(foo(1), 2) => 0
size($, 2) => 5
size(1 +, 2) => 8
size(1, $) => 0
size(foo, 2) => 5
'a'.startsWith( => 15
'a'.startsWith() => 4
'a'.startsWith('b', => 4
'a'.size() => 4
has => 3
has( => 4
has() => 0
has(1) => 5
has((event.a)) => 13
has(event.a, 1) => 0
has(1 + 2) => 6
has(1 + 2, 3) => 0
has(-event.a) => 4
has(!event.a) => 4
has(event.a == 1) => 12
has(event.a ? 1 : 2) => 12
has(event['a']) => 14
has(event.startsWith('a')) => 25
has(event.a => 11
size(has(1), 2) => 0
& => 0
1 & 2 => 2
1 | 2 => 2
1 = 2 => 2
# => 0
1 $ => 2
é => 0
! => 1
- => 1
1 + => 3
1 + + 2 => 4
1 ! 2 => 2
* 1 => 0
1 ? => 3
1 ? 2 => 5
1 ? 2 : => 7
1 : 2 => 2
1 ? : 2 => 4
(1 ? 2) : 3 => 6
1e5 => 1
1..2 => 2
1.2.3 => 4
.5 => 0
100000000000000000000 => 0
0.0000000000000000001 => 0
1 + 100000000000000000000 => 4
' => 1
'a => 2
"a' => 3
'\ => 2
'\u => 3
'\u0 => 4
'\u00 => 5
'\u00e => 6
'\u00e9 => 7
'\x' => 0
'\x => 0
'\ud800' => 0
'\udfff => 0
'\ud8 => 5
'\u00g0' => 0
'\u00' => 0
1 'a => 2
1 'a\x => 2
(1) ' => 4
size('a => 7
event.'a => 6
size 'a => 5
has('a => 6
1 inn [1] => 2
event.a.contains('b').foo() => 22
"#;

/// So many of a text between two others, and how the whole of them ends.
const LIMITS: &str = r#"|32|(| => no expression goes on so at byte 32
|33|(| => more than 32 open at byte 32
|32|!| => no expression goes on so at byte 32
|33|!| => more than 32 open at byte 32
|32|!|true => reads
|33|-|1 => more than 32 open at byte 32
|33|[| => more than 32 open at byte 32
|32|1?| => no expression goes on so at byte 64
|33|1?| => more than 32 open at byte 65
|32|1?2:|3 => reads
|33|1?2:|3 => more than 32 open at byte 129
|33|event[| => more than 32 open at byte 197
|1024| | => no expression goes on so at byte 1024
|1025| | => an expression of more than 1,024 bytes
|32|(|foo( => no expression goes on so at byte 32
|32|(|size( => more than 32 open at byte 36
|33|(|foo( => more than 32 open at byte 32
foo(|33|(| => no expression goes on so at byte 0
size(|32|(| => more than 32 open at byte 36
size(1|500|+1|,2) => no expression goes on so at byte 0
"#;

/// How a text ends: `reads`, or its fault in words.
fn end_of(alloc: Global, text: &[u8]) -> Result<String, Fail> {
    match parse(alloc, text) {
        Ok(_) => Ok(format!(in alloc; "reads")?),
        Err(fault) => Ok(format!(in alloc; "{fault}")?),
    }
}

/// Where no expression goes on so, if that is the text's fault.
fn place(alloc: Global, text: &[u8]) -> Option<u64> {
    match parse(alloc, text) {
        Err(ParseFault::Syntax { at }) => Some(at),
        _ => None,
    }
}

/// The text of a row `FRONT|COUNT|TEXT|BEHIND`: so many of the text between the two others.
fn text_of(alloc: Global, row: &str) -> Result<Vec<u8>, Fail> {
    let Some((front, rest)) = row.split_once("|") else {
        return Err(Fail::new("no front"))
    };
    let Some((count, rest)) = rest.split_once("|") else {
        return Err(Fail::new("no count"))
    };
    let Some((text, behind)) = rest.split_once("|") else {
        return Err(Fail::new("no text"))
    };
    let Ok(count) = count.parse::<u64>() else {
        return Err(Fail::new("no number"))
    };
    let mut all = Vec::from_slice(alloc, front.as_bytes())?;
    for _ in 0..count {
        all.extend_from_slice(text.as_bytes())?;
    }
    all.extend_from_slice(behind.as_bytes())?;
    Ok(all)
}

#[test]
fn faults(rt: HostRuntime) -> Result<(), Fail> {
    let mut count: u32 = 0;
    for row in FAULTS.lines() {
        if let Some((text, wanted)) = row.split_once(" => ") {
            let Ok(wanted) = wanted.parse::<u64>() else {
                return Err(Fail::new("no number"))
            };
            assert_eq!(rt; place(rt.alloc(), text.as_bytes()), Some(wanted), "{text}");
            count = count.wrapping_add(1);
        }
    }
    assert_eq!(rt; count, 118);
    Ok(())
}

#[test]
fn limits(rt: HostRuntime) -> Result<(), Fail> {
    let mut count: u32 = 0;
    for row in LIMITS.lines() {
        if let Some((parts, wanted)) = row.split_once(" => ") {
            let text = text_of(rt.alloc(), parts)?;
            let end = end_of(rt.alloc(), text.as_slice())?;
            assert_eq!(rt; (parts, end.as_str()), (parts, wanted));
            count = count.wrapping_add(1);
        }
    }
    assert_eq!(rt; count, 20);
    Ok(())
}

#[test]
fn expressions(rt: HostRuntime) -> Result<(), Fail> {
    let alloc = rt.alloc();
    let rows: [&[u8]; 14] = [
        b"event.data.accountId",
        b"async.data.k == event.data.u",
        b" 1 + 2 * -3 <= 4 ",
        b"event.in.true",
        b"1 in [1, 2,3]",
        b"!has(event.a.b) && size(event.a['b']) > 0",
        b"'a'.startsWith(\"\\u00e9\\n\")",
        b"1 ? 2 : 3 ? 4 : 5",
        b"007.50 != 0",
        b"99999999999999999999",
        b"string(null) == 'null' || false",
        b"[]",
        b"has([event][0].a)",
        b"'a\nb'",
    ];
    for text in rows {
        let end = end_of(alloc, text)?;
        assert_eq!(rt; end.as_str(), "reads");
    }
    Ok(())
}

#[test]
fn messages(rt: HostRuntime) -> Result<(), Fail> {
    let alloc = rt.alloc();
    let rows: [(ParseFault, &str); 4] = [
        (
            ParseFault::TooLong,
            "an expression of more than 1,024 bytes",
        ),
        (
            ParseFault::Syntax { at: 0 },
            "no expression goes on so at byte 0",
        ),
        (
            ParseFault::TooDeep { at: 1023 },
            "more than 32 open at byte 1023",
        ),
        (ParseFault::Memory, "out of memory"),
    ];
    for (fault, wanted) in rows {
        let text = format!(in alloc; "{fault}")?;
        assert_eq!(rt; text.as_str(), wanted);
    }
    Ok(())
}
