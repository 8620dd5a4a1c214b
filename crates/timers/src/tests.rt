// Each call once.
use crate::Timers;
use kinds::Due;
use std::test::Fail;

#[test]
fn dues_come_in_order_and_go_by_number_and_run(rt: HostRuntime) -> Result<(), Fail> {
    let mut timers = Timers::empty(rt.alloc());
    timers.put(30, 1, 7)?;
    timers.put(10, 2, 8)?;
    timers.put(10, 3, 7)?;
    timers.put(20, 4, 8)?;
    timers.put(20, 5, 9)?;
    assert_eq!(rt; timers.next(), Some(10));
    assert_eq!(rt; timers.take_due(9), None);
    timers.drop_run(8);
    timers.drop_number(5);
    assert_eq!(rt; timers.entries().count(), 2);
    assert_eq!(rt;
        timers.take_due(40),
        Some(Due {
            due: 10,
            number: 3,
            run: 7
        })
    );
    assert_eq!(rt;
        timers.take_due(40),
        Some(Due {
            due: 30,
            number: 1,
            run: 7
        })
    );
    assert_eq!(rt; timers.take_due(40), None);
    Ok(())
}
