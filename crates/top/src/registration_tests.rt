use crate::Status;
use crate::tests::{check, walk};
use std::alloc::Global;
use std::test::Fail;

const MODIFIED: &str = "answer 200 {\"ok\":true,\"modified\":true}\n";

// A function of this id for the event `x`, with further members.
fn function(alloc: Global, id: &str, more: &str) -> Result<String, Fail> {
    Ok(format!(in alloc;
        "{{\"id\":\"{id}\",\"triggers\":[{{\"event\":\"x\"}}],\"steps\":{{\"step\":{{\"runtime\":{{\"url\":\"http://127.0.0.1:9/api\"}}}}}}{more}}}"
    )?)
}

// The line that registers these functions of an application at 0.
fn line(alloc: Global, app: &str, functions: &str) -> Result<String, Fail> {
    Ok(format!(in alloc; "0 REGISTER {{\"appName\":\"{app}\",\"functions\":[{functions}]}}\n")?)
}

/// Scripts, with what each prints, and `done` or the number of the line at fault. A `|` is the end of a line.
const WRITTEN: &str =
    r#"0 REGISTER {"appName":"a","url":"http://127.0.0.1:9/api","functions":[{"id":"a-f","name":"f","triggers":[{"event":"x","expression":"event.data.u =="}],"steps":{"step":{"runtime":{"url":"http://127.0.0.1:9/api?fnId=a-f&stepId=step"}}}}]}| => answer 400 {"error":"bad expression","function":0,"member":"triggers","at":15,"status":400}|end inputs=0 live=0 moment=0| => done
0 REGISTER {"url":"http://localhost:3000/api/inngest","deployType":"ping","framework":"express","appName":"shop","functions":[{"id":"shop-order-paid","name":"Order paid","triggers":[{"event":"shop/order.paid"}],"steps":{"step":{"id":"step","name":"step","runtime":{"type":"http","url":"http://localhost:3000/api/inngest?fnId=shop-order-paid&stepId=step"},"retries":{"attempts":3}}},"concurrency":[{"limit":5,"key":"event.data.accountId"}]}],"v":"0.1"}|1 EVENTS {"name":"shop/order.paid","data":{"orderId":"o1","accountId":"A","total":19.90},"user":{"id":7},"ts":1700000000000,"v":"2024-01-01"}| => answer 200 {"ok":true,"modified":true}|answer 200 {"ids":["evt-1"],"status":200}|call 1 POST http://localhost:3000/api/inngest?fnId=shop-order-paid&stepId=step {"ctx":{"run_id":"00000000-0001-7000-8000-000000000001","attempt":0,"disable_immediate_execution":false,"use_api":false},"event":{"name":"shop/order.paid","data":{"orderId":"o1","accountId":"A","total":19.90},"id":"evt-1","ts":1700000000000,"user":{"id":7},"v":"2024-01-01"},"events":[{"name":"shop/order.paid","data":{"orderId":"o1","accountId":"A","total":19.90},"id":"evt-1","ts":1700000000000,"user":{"id":7},"v":"2024-01-01"}],"steps":{},"use_api":false}|end inputs=2 live=1 moment=1| => done
// The same again, and another order.
0 REGISTER {"appName":"a","functions":[{"id":"f","triggers":[{"event":"x"}],"steps":{"step":{"runtime":{"url":"http://127.0.0.1:9/api"}}}},{"id":"g","triggers":[{"event":"x"}],"steps":{"step":{"runtime":{"url":"http://127.0.0.1:9/api"}}}}]}|0 REGISTER {"appName":"a","functions":[{"id":"f","triggers":[{"event":"x"}],"steps":{"step":{"runtime":{"url":"http://127.0.0.1:9/api"}}}},{"id":"g","triggers":[{"event":"x"}],"steps":{"step":{"runtime":{"url":"http://127.0.0.1:9/api"}}}}]}|0 REGISTER {"appName":"a","functions":[{"id":"g","triggers":[{"event":"x"}],"steps":{"step":{"runtime":{"url":"http://127.0.0.1:9/api"}}}},{"id":"f","triggers":[{"event":"x"}],"steps":{"step":{"runtime":{"url":"http://127.0.0.1:9/api"}}}}]}| => answer 200 {"ok":true,"modified":true}|answer 200 {"ok":true,"modified":false}|answer 200 {"ok":true,"modified":false}|end inputs=3 live=0 moment=0| => done
// Another function of the id, and the first again.
0 REGISTER {"appName":"a","functions":[{"id":"f","triggers":[{"event":"x"}],"steps":{"step":{"runtime":{"url":"http://127.0.0.1:9/api"}}}}]}|0 REGISTER {"appName":"a","functions":[{"id":"f","triggers":[{"event":"x"}],"steps":{"step":{"runtime":{"url":"http://127.0.0.1:9/api"}}},"concurrency":1}]}|0 REGISTER {"appName":"a","functions":[{"id":"f","triggers":[{"event":"x"}],"steps":{"step":{"runtime":{"url":"http://127.0.0.1:9/api"}}}}]}| => answer 200 {"ok":true,"modified":true}|answer 200 {"ok":true,"modified":true}|answer 200 {"ok":true,"modified":true}|end inputs=3 live=0 moment=0| => done
// One that is no longer named, and then is.
0 REGISTER {"appName":"a","functions":[{"id":"f","triggers":[{"event":"x"}],"steps":{"step":{"runtime":{"url":"http://127.0.0.1:9/api"}}}}]}|0 REGISTER {"appName":"a","functions":[]}|0 REGISTER {"appName":"a","functions":[{"id":"f","triggers":[{"event":"x"}],"steps":{"step":{"runtime":{"url":"http://127.0.0.1:9/api"}}}}]}| => answer 200 {"ok":true,"modified":true}|answer 200 {"ok":true,"modified":true}|answer 200 {"ok":true,"modified":true}|end inputs=3 live=0 moment=0| => done
// An equal function of another application is taken over, and taken back.
0 REGISTER {"appName":"a","functions":[{"id":"f","triggers":[{"event":"x"}],"steps":{"step":{"runtime":{"url":"http://127.0.0.1:9/api"}}}}]}|0 REGISTER {"appName":"b","functions":[{"id":"f","triggers":[{"event":"x"}],"steps":{"step":{"runtime":{"url":"http://127.0.0.1:9/api"}}}}]}|0 REGISTER {"appName":"a","functions":[{"id":"f","triggers":[{"event":"x"}],"steps":{"step":{"runtime":{"url":"http://127.0.0.1:9/api"}}}}]}| => answer 200 {"ok":true,"modified":true}|answer 200 {"ok":true,"modified":true}|answer 200 {"ok":true,"modified":true}|end inputs=3 live=0 moment=0| => done
// The functions of another application stay where no id of theirs is taken.
0 REGISTER {"appName":"a","functions":[{"id":"f","triggers":[{"event":"x"}],"steps":{"step":{"runtime":{"url":"http://127.0.0.1:9/api"}}}}]}|0 REGISTER {"appName":"b","functions":[{"id":"g","triggers":[{"event":"x"}],"steps":{"step":{"runtime":{"url":"http://127.0.0.1:9/api"}}}}]}|0 REGISTER {"appName":"a","functions":[{"id":"f","triggers":[{"event":"x"}],"steps":{"step":{"runtime":{"url":"http://127.0.0.1:9/api"}}}}]}| => answer 200 {"ok":true,"modified":true}|answer 200 {"ok":true,"modified":true}|answer 200 {"ok":true,"modified":false}|end inputs=3 live=0 moment=0| => done
// A body that is refused changes nothing, and one is needed.
7 REGISTER {|7 REGISTER []|7 REGISTER {}|7 REGISTER {"appName":"a"}| => answer 400 {"error":"not json","status":400}|answer 400 {"error":"not json","status":400}|answer 400 {"error":"no app name","status":400}|answer 400 {"error":"no functions","status":400}|end inputs=0 live=0 moment=0| => done
// Events may come before a registration, and after one that was refused.
1 EVENT x i|2 REGISTER {"functions":[]}|3 EVENT x i|4 REGISTER {"appName":"a","functions":[]}| => answer 200 {"ids":["evt-1"],"status":200}|answer 400 {"error":"no app name","status":400}|answer 200 {"ids":["evt-1"],"status":200}|answer 200 {"ok":true,"modified":false}|end inputs=3 live=0 moment=4| => done
0 REGISTER | => answer 400 {"error":"not json","status":400}|end inputs=0 live=0 moment=0| => done
0 REGISTER| => script fault in line 1| => 1
0 REGISTER {"appName":"a","functions":[]}||1 EVENT x i| => answer 200 {"ok":true,"modified":false}|answer 200 {"ids":["evt-1"],"status":200}|end inputs=2 live=0 moment=1| => done
"#;

#[test]
fn registrations_as_written(rt: HostRuntime) -> Result<(), Fail> {
    assert_eq!(rt; walk(&rt, WRITTEN, 7)?, 12);
    Ok(())
}

#[test]
fn functions_of_five_applications(rt: HostRuntime) -> Result<(), Fail> {
    let alloc = rt.alloc();
    let mut script = String::new(alloc);
    for app in 0..5u32 {
        let mut functions = String::new(alloc);
        for index in 0..256u32 {
            if index > 0 {
                functions.push(',')?;
            }
            let id = format!(in alloc; "f-{app}-{index}")?;
            functions.push_str(&function(alloc, &id, "")?)?;
        }
        let name = format!(in alloc; "app {app}")?;
        script.push_str(&line(alloc, &name, &functions)?)?;
    }
    let full = "answer 429 {\"error\":\"functions full\",\"at\":1280,\"status\":429}\n";
    let printed = format!(in alloc;
        "{MODIFIED}{MODIFIED}{MODIFIED}{MODIFIED}{full}end inputs=4 live=0 moment=0\n"
    )?;
    check(&rt, script.as_bytes(), 65_536, &printed, Status::Done)
}
