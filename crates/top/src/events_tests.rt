ghost use Rattle.std.specs.Prelude.{◌≤◌};

use crate::Status;
use crate::tests::{check, walk};
use std::alloc::Global;
use std::test::Fail;

/// Scripts, with what each prints, and `done` or the number of the line at fault. A `|` is the end of a line.
const BODIES: &str =
    r#"5 EVENTS []| => answer 200 {"ids":[],"status":200}|end inputs=0 live=0 moment=0| => done
0 EVENTS [{"name":"x"},{"data":{}}]| => answer 400 {"error":"no name","at":1,"status":400}|end inputs=0 live=0 moment=0| => done
0 EVENTS [{"name":"x","id":"i"},{"name":"x","id":"i"}]| => answer 200 {"ids":["evt-1","evt-1"],"status":200}|end inputs=1 live=0 moment=0| => done
0 EVENTS {"name":"x","id":"i1"}|86399999 EVENT x i1|86400000 EVENTS {"id":"i1","name":"x"}| => answer 200 {"ids":["evt-1"],"status":200}|answer 200 {"ids":["evt-1"],"status":200}|answer 200 {"ids":["evt-2"],"status":200}|end inputs=3 live=0 moment=86400000| => done
1000 EVENTS {"name":"x","id":"i1"}|500 EVENTS {"name":"x","id":"i2"}| => answer 200 {"ids":["evt-1"],"status":200}|answer 200 {"ids":["evt-2"],"status":200}|end inputs=2 live=0 moment=1000| => done
// Spaces around a value; ids that are spelled in two ways; ids that don't count.
0 EVENTS [ {"name" : "x", "id":"a"} , {"name":"y","id":"\u0061"} ]|1 EVENTS [{"name":"x","id":""},{"name":"x","id":7},{"name":"x","id":null}]| => answer 200 {"ids":["evt-1","evt-1"],"status":200}|answer 200 {"ids":["evt-2","evt-3","evt-4"],"status":200}|end inputs=2 live=0 moment=1| => done
// A refused body changes neither the moment nor a count.
9 EVENTS nul|9 EVENTS |3 EVENT x i| => answer 400 {"error":"not json","at":3,"status":400}|answer 400 {"error":"not json","at":0,"status":400}|answer 200 {"ids":["evt-1"],"status":200}|end inputs=1 live=0 moment=3| => done
0 EVENTS {"name":"x","data":[]}|0 EVENTS {"name":"x","data":null}|0 EVENTS {"name":""}|0 EVENTS 5|0 EVENTS [1]| => answer 400 {"error":"data not object","at":0,"status":400}|answer 200 {"ids":["evt-1"],"status":200}|answer 400 {"error":"no name","at":0,"status":400}|answer 400 {"error":"no name","at":0,"status":400}|answer 400 {"error":"no name","at":0,"status":400}|end inputs=1 live=0 moment=0| => done
// The last of two members counts.
0 EVENTS {"name":1,"name":"x","id":"a","id":"b"}|1 EVENT x a|2 EVENT x b| => answer 200 {"ids":["evt-1"],"status":200}|answer 200 {"ids":["evt-2"],"status":200}|answer 200 {"ids":["evt-1"],"status":200}|end inputs=3 live=0 moment=2| => done
// A body needs its space; a line without one, and other kinds of lines, are outside the grammar.
0 EVENTS| => script fault in line 1| => 1
0 EVENTS []|0 EVENTSX []| => answer 200 {"ids":[],"status":200}|script fault in line 2| => 2
x EVENTS []| => script fault in line 1| => 1
0 REGISTRATION {}| => script fault in line 1| => 1
0 EVENTS {"name":"x"} => answer 200 {"ids":["evt-1"],"status":200}|end inputs=1 live=0 moment=0| => done
"#;

#[test]
fn bodies(rt: HostRuntime) -> Result<(), Fail> {
    for piece in [1, 2, 7, 65_536] {
        assert_eq!(rt; walk(&rt, BODIES, piece)?, 14);
    }
    Ok(())
}

#[test]
fn too_many_events(rt: HostRuntime) -> Result<(), Fail> {
    let mut script = Vec::from_slice(rt.alloc(), b"0 EVENTS [{\"name\":\"x\"}")?;
    for _event in 0..1_000 {
        script.extend_from_slice(b",{\"name\":\"x\"}")?;
    }
    script.extend_from_slice(b"]\n")?;
    check(
        &rt,
        &script,
        65_536,
        "answer 400 {\"error\":\"too many events\",\"at\":1001,\"status\":400}\nend inputs=0 live=0 moment=0\n",
        Status::Done,
    )
}

// An event of so many bytes, as the only one of a body.
fn event_of_size(alloc: Global, size: usize) -> Result<Vec<u8>, Fail>
    requires { (2 ≤ size) × (size ≤ 1048576) }
{
    let mut script = Vec::from_slice(alloc, b"0 EVENTS {\"name\":\"x\",\"v\":\"")?;
    script.resize(9 + size - 2, b'v')?;
    script.extend_from_slice(b"\"}\n")?;
    Ok(script)
}

#[test]
fn large_events(rt: HostRuntime) -> Result<(), Fail> {
    let script = event_of_size(rt.alloc(), 262_144)?;
    check(
        &rt,
        &script,
        65_536,
        "answer 200 {\"ids\":[\"evt-1\"],\"status\":200}\nend inputs=1 live=0 moment=0\n",
        Status::Done,
    )?;
    let script = event_of_size(rt.alloc(), 262_145)?;
    check(
        &rt,
        &script,
        65_536,
        "answer 400 {\"error\":\"event too large\",\"at\":0,\"status\":400}\nend inputs=0 live=0 moment=0\n",
        Status::Done,
    )
}
