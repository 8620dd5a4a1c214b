use crate::tests::{lines_of, prints};
use rig::MemSource;
use std::alloc::Global;
use std::process::Abort;
use std::test::Fail;

/// Scripts, each behind the members that its function has beside the usual ones, with what is printed behind the
/// answer to the registration, by `--brief` and then in full where that is told. A `|` is the end of a line, `<1>` an
/// event `x` with the data `{"u":1}`, `[[1,2]]` the answer with these ids, `%1` and `%2` two hashes.
const BRIEF: &str = r#"// A key's limit, and calls by score.
,"concurrency":{"limit":1,"key":"event.data.u"} => 1 EVENTS [<1>,<1>,<2>]|2 REPLY 1 200 null| => [["evt-1","evt-2","evt-3"]]|call 1 a-f step run 1 attempt 0 steps 0 events evt-1|call 2 a-f step run 3 attempt 0 steps 0 events evt-3|call 3 a-f step run 2 attempt 0 steps 0 events evt-2|end inputs=3 live=2 moment=2|
,"concurrency":1,"priority":{"run":"event.data.u"} => 0 EVENTS <0>|1000 EVENTS <0>|600999 EVENTS <600>|601000 EVENTS <600>|601001 EVENTS <600>|601002 REPLY 1 200 null|601002 REPLY 2 200 null|601002 REPLY 3 200 null|601002 REPLY 4 200 null| => [["evt-1"]]|call 1 a-f step run 1 attempt 0 steps 0 events evt-1|[["evt-2"]]|[["evt-3"]]|[["evt-4"]]|[["evt-5"]]|call 2 a-f step run 3 attempt 0 steps 0 events evt-3|call 3 a-f step run 2 attempt 0 steps 0 events evt-2|call 4 a-f step run 4 attempt 0 steps 0 events evt-4|call 5 a-f step run 5 attempt 0 steps 0 events evt-5|end inputs=10 live=1 moment=601002|
// A sleeping run holds no place.
,"concurrency":1 => 1 EVENTS [<1>,<2>]|2 REPLY 1 206 [{"id":"%1","op":"Sleep","opts":{"duration":"10s"}}]|10002 TICK|10003 REPLY 2 200 null| => [["evt-1","evt-2"]]|call 1 a-f step run 1 attempt 0 steps 0 events evt-1|call 2 a-f step run 2 attempt 0 steps 0 events evt-2|call 3 a-f step run 1 attempt 0 steps 1 events evt-1|end inputs=5 live=1 moment=10003|
// A throttle, a debounce, its end, and batches.
,"throttle":{"limit":2,"period":"60s","burst":2} => 0 EVENTS [<1>,<1>,<1>]|29999 TICK|30000 TICK| => [["evt-1","evt-2","evt-3"]]|call 1 a-f step run 1 attempt 0 steps 0 events evt-1|call 2 a-f step run 2 attempt 0 steps 0 events evt-2|call 3 a-f step run 3 attempt 0 steps 0 events evt-3|end inputs=4 live=3 moment=30000|
,"debounce":{"period":"10s","timeout":"25s"} => 0 EVENTS <1>|9000 EVENTS <1>|18000 EVENTS <1>|25000 TICK| => [["evt-1"]]|[["evt-2"]]|[["evt-3"]]|call 1 a-f step run 1 attempt 0 steps 0 events evt-3|end inputs=5 live=1 moment=25000|
,"debounce":{"period":"10s","timeout":"25s"} => 0 EVENTS <1>|9999 TICK|10000 TICK| => [["evt-1"]]|call 1 a-f step run 1 attempt 0 steps 0 events evt-1|end inputs=4 live=1 moment=10000|
,"batchEvents":{"maxSize":3,"timeout":"5s"} => 0 EVENTS [<1>,<1>,<1>,<1>]|12000 TICK| => [["evt-1","evt-2","evt-3","evt-4"]]|call 1 a-f step run 1 attempt 0 steps 0 events evt-1,evt-2,evt-3|call 2 a-f step run 2 attempt 0 steps 0 events evt-4|end inputs=3 live=2 moment=12000|
// A window keeps its version.
,"batchEvents":{"maxSize":3,"timeout":"5s"} => 0 EVENTS [<1>,<2>]|1 REGISTER @{}@|5000 TICK| => [["evt-1","evt-2"]]|answer 200 {"ok":true,"modified":true}|call 1 a-f step run 1 attempt 0 steps 0 events evt-1,evt-2|end inputs=4 live=1 moment=5000|
// Another version of the function has limits of its own.
,"concurrency":3 => 1 EVENTS [<1>,<1>,<1>]|2 REGISTER @,"concurrency":1@|3 EVENTS <1>|4 REPLY 1 200 null|5 REPLY 2 200 null|6 REPLY 3 200 null| => [["evt-1","evt-2","evt-3"]]|call 1 a-f step run 1 attempt 0 steps 0 events evt-1|call 2 a-f step run 2 attempt 0 steps 0 events evt-2|call 3 a-f step run 3 attempt 0 steps 0 events evt-3|answer 200 {"ok":true,"modified":true}|[["evt-4"]]|call 4 a-f step run 4 attempt 0 steps 0 events evt-4|end inputs=7 live=1 moment=6|
// Both waits that an event meets, and a wait's end.
{} => 1 EVENTS <1>|2 REPLY 1 206 [{"id":"%1","op":"WaitForEvent","opts":{"event":"y","timeout":"1h"}},{"id":"%2","op":"WaitForEvent","opts":{"event":"y","timeout":"1h","if":"async.data.k == event.data.k"}}]|3 EVENTS {"name":"y","data":{"k":1}}| => [["evt-1"]]|call 1 a-f step run 1 attempt 0 steps 0 events evt-1|[["evt-2"]]|call 2 a-f step run 1 attempt 0 steps 1 events evt-1|end inputs=4 live=1 moment=3|
{} => 1 EVENTS <1>|2 REPLY 1 206 [{"id":"%1","op":"WaitForEvent","name":"y","opts":{"timeout":"1s"}}]|1002 TICK| => [["evt-1"]]|call 1 a-f step run 1 attempt 0 steps 0 events evt-1|call 2 a-f step run 1 attempt 0 steps 1 events evt-1|end inputs=4 live=1 moment=1002|
// An invocation, and one of no function.
{} => 1 EVENTS <1>|2 REPLY 1 206 [{"id":"%1","op":"InvokeFunction","opts":{"function_id":"a-f","payload":{"data":{"u":9}}}}]|3 REPLY 2 200 {"r":1.0}| => [["evt-1"]]|call 1 a-f step run 1 attempt 0 steps 0 events evt-1|call 2 a-f step run 2 attempt 0 steps 0 events evt-2|call 3 a-f step run 1 attempt 0 steps 1 events evt-1|end inputs=4 live=1 moment=3|
{} => 1 EVENTS <1>|2 REPLY 1 206 [{"id":"%1","op":"InvokeFunction","opts":{"function_id":"none"}}]| => [["evt-1"]]|call 1 a-f step run 1 attempt 0 steps 0 events evt-1|call 2 a-f step run 1 attempt 0 steps 1 events evt-1|end inputs=3 live=1 moment=2|
// Cancel rules, with a call that is open and without; a cancellation, and a second.
,"concurrency":1,"cancel":[{"event":"stop","if":"async.data.u == event.data.u"}] => 1 EVENTS [<1>,<2>]|2 EVENTS {"name":"stop","data":{"u":1}}|3 REPLY 1 206 [{"id":"%1","op":"StepRun","data":1}]| => [["evt-1","evt-2"]]|call 1 a-f step run 1 attempt 0 steps 0 events evt-1|[["evt-3"]]|call 2 a-f step run 2 attempt 0 steps 0 events evt-2|end inputs=4 live=1 moment=3|
,"cancel":[{"event":"stop","if":"async.data.u == event.data.u"}] => 1 EVENTS [<1>,<2>]|2 EVENTS {"name":"stop","data":{"u":1}}|3 REPLY 1 206 [{"id":"%1","op":"StepRun","data":1}]|4 REPLY 2 206 [{"id":"%1","op":"StepRun","data":1}]| => [["evt-1","evt-2"]]|call 1 a-f step run 1 attempt 0 steps 0 events evt-1|call 2 a-f step run 2 attempt 0 steps 0 events evt-2|[["evt-3"]]|call 3 a-f step run 2 attempt 0 steps 1 events evt-2|end inputs=5 live=1 moment=4|
{} => 0 EVENTS <1>|1 CANCEL 1|2 CANCEL 1| => [["evt-1"]]|call 1 a-f step run 1 attempt 0 steps 0 events evt-1|answer 204|answer 400 {"error":"run ended","status":400}|end inputs=3 live=0 moment=1|
// A call's limit.
{} => 1 EVENTS <1>|7200000 TICK|7200001 TICK|7210001 TICK| => [["evt-1"]]|call 1 a-f step run 1 attempt 0 steps 0 events evt-1|hang 1|call 2 a-f step run 1 attempt 1 steps 0 events evt-1|end inputs=5 live=1 moment=7210001|
// Replies out of order, planned steps, and one beside a sleep.
{} => 1 EVENTS [<1>,<2>]|2 REPLY 2 200 null|3 REPLY 1 200 null| => [["evt-1","evt-2"]]|call 1 a-f step run 1 attempt 0 steps 0 events evt-1|call 2 a-f step run 2 attempt 0 steps 0 events evt-2|end inputs=4 live=0 moment=3|
{} => 1 EVENTS <1>|2 REPLY 1 206 [{"id":"%1","op":"StepPlanned"},{"id":"%2","op":"StepPlanned"}]|3 REPLY 2 206 [{"id":"%1","op":"StepRun","data":1}]|4 REPLY 3 206 [{"id":"%2","op":"StepRun","data":2}]|5 REPLY 4 206 [{"id":"%2","op":"StepPlanned"}]| => [["evt-1"]]|call 1 a-f step run 1 attempt 0 steps 0 events evt-1|call 2 a-f %1 run 1 attempt 0 steps 0 events evt-1|call 3 a-f %2 run 1 attempt 0 steps 0 events evt-1|call 4 a-f step run 1 attempt 0 steps 1 events evt-1|call 5 a-f step run 1 attempt 0 steps 2 events evt-1|end inputs=6 live=1 moment=5|
{} => 1 EVENTS <1>|2 REPLY 1 206 [{"id":"%1","op":"StepPlanned"},{"id":"%2","op":"Sleep","name":"1s"}]|1002 TICK|1003 REPLY 3 206 [{"id":"%1","op":"StepRun","data":1}]|1004 REPLY 4 206 []|1005 REPLY 2 206 [{"id":"%1","op":"StepRun","data":1}]| => [["evt-1"]]|call 1 a-f step run 1 attempt 0 steps 0 events evt-1|call 2 a-f %1 run 1 attempt 0 steps 0 events evt-1|call 3 a-f step run 1 attempt 0 steps 1 events evt-1|call 4 a-f step run 1 attempt 0 steps 2 events evt-1|call 5 a-f step run 1 attempt 0 steps 2 events evt-1|end inputs=7 live=1 moment=1005|
// Attempts and their delays, the event of a failed run, and a reply that can't be read.
},{"id":"a-h","name":"h","triggers":[{"event":"inngest/function.failed"}],"steps":{"step":{"runtime":{"url":"http://127.0.0.1:9/api"}}} => 0 EVENTS <1>|1000 REPLY 1 500 retry=3 {"name":"E","message":"m"}|4000 TICK|4000 REPLY 2 500 {"name":"E","message":"m"}|34000 TICK|34000 REPLY 3 500 {"name":"E","message":"m"}|94000 TICK|94000 REPLY 4 500 {"name":"E","message":"m"}|214000 TICK|214000 REPLY 5 500 {"name":"E","message":"m"}| => [["evt-1"]]|call 1 a-f step run 1 attempt 0 steps 0 events evt-1|call 2 a-f step run 1 attempt 1 steps 0 events evt-1|call 3 a-f step run 1 attempt 2 steps 0 events evt-1|call 4 a-f step run 1 attempt 3 steps 0 events evt-1|call 5 a-f step run 1 attempt 4 steps 0 events evt-1|call 6 a-h step run 2 attempt 0 steps 0 events evt-2|end inputs=11 live=1 moment=214000|
{} => 1000 EVENTS <1>|2000 REPLY 1 206 [{"id":"%1","op":"Gateway"}]|11999 TICK|12000 TICK| => [["evt-1"]]|call 1 a-f step run 1 attempt 0 steps 0 events evt-1|call 2 a-f step run 1 attempt 1 steps 0 events evt-1|end inputs=5 live=1 moment=12000|
// A call that can't be made, and lines that name no open call and no run.
{} => 1 EVENTS <1>|2 FAIL 1|10002 TICK| => [["evt-1"]]|call 1 a-f step run 1 attempt 0 steps 0 events evt-1|call 2 a-f step run 1 attempt 1 steps 0 events evt-1|end inputs=4 live=1 moment=10002|
{} => 1 FAIL 1| => script fault in line 2|
{} => 1 CANCEL 1| => script fault in line 2|
{} => 1 REPLY 7 200 null| => script fault in line 2|
{} => 1 EVENTS <1>|2 REPLY 1 99 null| => [["evt-1"]]|call 1 a-f step run 1 attempt 0 steps 0 events evt-1|script fault in line 3|
{} => 1 TICK |  => script fault in line 2|
"#;

/// The same in full.
const FULL: &str =
    r#"{} => 1000 EVENTS <1>|1050 REPLY 1 206 [{"id":"%1","op":"StepRun","data":"ok"}]|1100 REPLY 2 200 "done"| => [["evt-1"]]|call 1 POST http://127.0.0.1:9/api?fnId=a-f&stepId=step {"ctx":{"run_id":"00000000-03e8-7000-8000-000000000001","attempt":0,"disable_immediate_execution":false,"use_api":false},"event":{"name":"x","data":{"u":1},"id":"evt-1","ts":1000},"events":[{"name":"x","data":{"u":1},"id":"evt-1","ts":1000}],"steps":{},"use_api":false}|call 2 POST http://127.0.0.1:9/api?fnId=a-f&stepId=step {"ctx":{"run_id":"00000000-03e8-7000-8000-000000000001","attempt":0,"disable_immediate_execution":false,"use_api":false},"event":{"name":"x","data":{"u":1},"id":"evt-1","ts":1000},"events":[{"name":"x","data":{"u":1},"id":"evt-1","ts":1000}],"steps":{"%1":{"data":"ok"}},"use_api":false}|end inputs=4 live=0 moment=1100|
{} => 1 EVENTS {"name":"x","data":{"p":1.50,"q":1e2}}|2 REPLY 1 206 [{"id":"%1","op":"StepRun","data":{"p":1.50,"q":1e2}}]| => [["evt-1"]]|call 1 POST http://127.0.0.1:9/api?fnId=a-f&stepId=step {"ctx":{"run_id":"00000000-0001-7000-8000-000000000001","attempt":0,"disable_immediate_execution":false,"use_api":false},"event":{"name":"x","data":{"p":1.50,"q":1e2},"id":"evt-1","ts":1},"events":[{"name":"x","data":{"p":1.50,"q":1e2},"id":"evt-1","ts":1}],"steps":{},"use_api":false}|call 2 POST http://127.0.0.1:9/api?fnId=a-f&stepId=step {"ctx":{"run_id":"00000000-0001-7000-8000-000000000001","attempt":0,"disable_immediate_execution":false,"use_api":false},"event":{"name":"x","data":{"p":1.50,"q":1e2},"id":"evt-1","ts":1},"events":[{"name":"x","data":{"p":1.50,"q":1e2},"id":"evt-1","ts":1}],"steps":{"%1":{"data":{"p":1.50,"q":1e2}}},"use_api":false}|end inputs=3 live=1 moment=2|
// A batch, whose second run is of the moment at which its window is over; what an event, a wait's end and an invoked run give.
,"batchEvents":{"maxSize":3,"timeout":"5s"} => 0 EVENTS [<1>,<1>,<1>,<1>]|12000 TICK| => [["evt-1","evt-2","evt-3","evt-4"]]|call 1 POST http://127.0.0.1:9/api?fnId=a-f&stepId=step {"ctx":{"run_id":"00000000-0000-7000-8000-000000000001","attempt":0,"disable_immediate_execution":false,"use_api":false},"event":{"name":"x","data":{"u":1},"id":"evt-1","ts":0},"events":[{"name":"x","data":{"u":1},"id":"evt-1","ts":0},{"name":"x","data":{"u":1},"id":"evt-2","ts":0},{"name":"x","data":{"u":1},"id":"evt-3","ts":0}],"steps":{},"use_api":false}|call 2 POST http://127.0.0.1:9/api?fnId=a-f&stepId=step {"ctx":{"run_id":"00000000-1388-7000-8000-000000000002","attempt":0,"disable_immediate_execution":false,"use_api":false},"event":{"name":"x","data":{"u":1},"id":"evt-4","ts":0},"events":[{"name":"x","data":{"u":1},"id":"evt-4","ts":0}],"steps":{},"use_api":false}|end inputs=3 live=2 moment=12000|
{} => 1 EVENTS <1>|2 REPLY 1 206 [{"id":"%1","op":"WaitForEvent","opts":{"event":"y","timeout":"1h"}},{"id":"%2","op":"WaitForEvent","opts":{"event":"y","timeout":"1h","if":"async.data.k == event.data.k"}}]|3 EVENTS {"name":"y","data":{"k":1}}| => [["evt-1"]]|call 1 POST http://127.0.0.1:9/api?fnId=a-f&stepId=step {"ctx":{"run_id":"00000000-0001-7000-8000-000000000001","attempt":0,"disable_immediate_execution":false,"use_api":false},"event":{"name":"x","data":{"u":1},"id":"evt-1","ts":1},"events":[{"name":"x","data":{"u":1},"id":"evt-1","ts":1}],"steps":{},"use_api":false}|[["evt-2"]]|call 2 POST http://127.0.0.1:9/api?fnId=a-f&stepId=step {"ctx":{"run_id":"00000000-0001-7000-8000-000000000001","attempt":0,"disable_immediate_execution":false,"use_api":false},"event":{"name":"x","data":{"u":1},"id":"evt-1","ts":1},"events":[{"name":"x","data":{"u":1},"id":"evt-1","ts":1}],"steps":{"%1":{"data":{"name":"y","data":{"k":1},"id":"evt-2","ts":3}}},"use_api":false}|end inputs=4 live=1 moment=3|
{} => 1 EVENTS <1>|2 REPLY 1 206 [{"id":"%1","op":"WaitForEvent","name":"y","opts":{"timeout":"1s"}}]|1002 TICK| => [["evt-1"]]|call 1 POST http://127.0.0.1:9/api?fnId=a-f&stepId=step {"ctx":{"run_id":"00000000-0001-7000-8000-000000000001","attempt":0,"disable_immediate_execution":false,"use_api":false},"event":{"name":"x","data":{"u":1},"id":"evt-1","ts":1},"events":[{"name":"x","data":{"u":1},"id":"evt-1","ts":1}],"steps":{},"use_api":false}|call 2 POST http://127.0.0.1:9/api?fnId=a-f&stepId=step {"ctx":{"run_id":"00000000-0001-7000-8000-000000000001","attempt":0,"disable_immediate_execution":false,"use_api":false},"event":{"name":"x","data":{"u":1},"id":"evt-1","ts":1},"events":[{"name":"x","data":{"u":1},"id":"evt-1","ts":1}],"steps":{"%1":{"data":null}},"use_api":false}|end inputs=4 live=1 moment=1002|
{} => 1 EVENTS <1>|2 REPLY 1 206 [{"id":"%1","op":"InvokeFunction","opts":{"function_id":"a-f","payload":{"data":{"u":9}}}}]|3 REPLY 2 200 {"r":1.0}| => [["evt-1"]]|call 1 POST http://127.0.0.1:9/api?fnId=a-f&stepId=step {"ctx":{"run_id":"00000000-0001-7000-8000-000000000001","attempt":0,"disable_immediate_execution":false,"use_api":false},"event":{"name":"x","data":{"u":1},"id":"evt-1","ts":1},"events":[{"name":"x","data":{"u":1},"id":"evt-1","ts":1}],"steps":{},"use_api":false}|call 2 POST http://127.0.0.1:9/api?fnId=a-f&stepId=step {"ctx":{"run_id":"00000000-0002-7000-8000-000000000002","attempt":0,"disable_immediate_execution":false,"use_api":false},"event":{"name":"inngest/function.invoked","data":{"u":9},"id":"evt-2","ts":2},"events":[{"name":"inngest/function.invoked","data":{"u":9},"id":"evt-2","ts":2}],"steps":{},"use_api":false}|call 3 POST http://127.0.0.1:9/api?fnId=a-f&stepId=step {"ctx":{"run_id":"00000000-0001-7000-8000-000000000001","attempt":0,"disable_immediate_execution":false,"use_api":false},"event":{"name":"x","data":{"u":1},"id":"evt-1","ts":1},"events":[{"name":"x","data":{"u":1},"id":"evt-1","ts":1}],"steps":{"%1":{"data":{"r":1.0}}},"use_api":false}|end inputs=4 live=1 moment=3|
"#;

const MODIFIED: &str = "answer 200 {\"ok\":true,\"modified\":true}\n";

const HEAD: &str =
    "{\"appName\":\"a\",\"url\":\"http://127.0.0.1:9/api\",\"functions\":[{\"id\":\"a-f\",\"name\":\"f\",\"triggers\":[{\"event\":\"x\"}],\"steps\":{\"step\":{\"runtime\":{\"url\":\"http://127.0.0.1:9/api?fnId=a-f&stepId=step\"}}}";

// The text that a short form of a row stands for.
fn whole(alloc: Global, text: &str) -> Result<String, Fail> {
    let text = lines_of(alloc, text)?;
    let text = text.replace(alloc, "<", "{\"name\":\"x\",\"data\":{\"u\":")?;
    let text = text.replace(alloc, ">", "}}")?;
    let text = text.replace(alloc, "[[", "answer 200 {\"ids\":[")?;
    let text = text.replace(alloc, "]]\n", "],\"status\":200}\n")?;
    let text = text.replace(alloc, "%1", "a9993e364706816aba3e25717850c26c9cd0d89d")?;
    Ok(text.replace(alloc, "%2", "86f7e437faa5a7fce15d1ddcb9eaeaea377667b8")?)
}

// A registration of the function with further members; `{}` stands for none.
fn registration(alloc: Global, more: &str) -> Result<String, Fail> {
    let more = if more == "{}" { "" } else { more };
    Ok(format!(in alloc; "{HEAD}{more}}}]}}")?)
}

// The script of a row, in which `@MEMBERS@` is a registration.
fn script_of(alloc: Global, members: &str, lines: &str) -> Result<String, Fail> {
    let lines = whole(alloc, lines)?;
    let first = registration(alloc, members)?;
    match lines.split_once("@") {
        Some((before, rest)) => match rest.split_once("@") {
            Some((more, behind)) => {
                let second = registration(alloc, more)?;
                Ok(format!(in alloc; "0 REGISTER {first}\n{before}{second}{behind}")?)
            }
            None => Err(Fail::new("no second @")),
        },
        None => Ok(format!(in alloc; "0 REGISTER {first}\n{lines}")?),
    }
}

// Runs the script of a row `MEMBERS => LINES => PRINTED` with these words.
fn check_row(
    rt: &(impl Abort + AllocGlobal),
    words: &[String],
    members: &str,
    row: &str,
) -> Result<(), Fail> {
    let Some((lines, printed)) = row.split_once(" => ") else {
        return Err(Fail::new("no lines"))
    };
    let script = script_of(rt.alloc(), members, lines)?;
    let printed = whole(rt.alloc(), printed)?;
    let printed = format!(in rt.alloc(); "{MODIFIED}{printed}")?;
    let mut input = MemSource::from_slice(rt.alloc(), script.as_bytes())?;
    prints(rt, words, &mut input, &printed)
}

// Runs the script of each row with these words, and gives the number of the rows.
fn walk(rt: &(impl Abort + AllocGlobal), words: &[String], rows: &str) -> Result<u32, Fail> {
    let mut count: u32 = 0;
    for row in rows.lines() {
        if let Some((members, row)) = row.split_once(" => ") {
            check_row(rt, words, members, row)?;
            count = count.wrapping_add(1);
        }
    }
    Ok(count)
}

#[test]
fn runs_in_brief(rt: HostRuntime) -> Result<(), Fail> {
    let mut words = Vec::new(rt.alloc());
    words.push(String::from_str(rt.alloc(), "--brief")?)?;
    assert_eq!(rt; walk(&rt, &words, BRIEF)?, 28);
    Ok(())
}

#[test]
fn runs_in_full(rt: HostRuntime) -> Result<(), Fail> {
    assert_eq!(rt; walk(&rt, &[], FULL)?, 6);
    Ok(())
}
