use crate::{is_step_hash, run_id, run_number, step_hash};
use std::test::Fail;

#[test]
fn step_names(rt: HostRuntime) -> Result<(), Fail> {
    // the digests of `abc` (FIPS 180-4), `a`, and `abc:1`
    let abc = b"a9993e364706816aba3e25717850c26c9cd0d89d";
    assert_eq!(rt; step_hash(b"abc", 0).as_slice(), abc.as_slice());
    assert_eq!(rt;
        step_hash(b"a", 0).as_slice(),
        b"86f7e437faa5a7fce15d1ddcb9eaeaea377667b8".as_slice()
    );
    assert_eq!(rt;
        step_hash(b"abc", 1).as_slice(),
        step_hash(b"abc:1", 0).as_slice()
    );
    assert!(rt; is_step_hash(abc));
    assert!(rt; !is_step_hash(b"A9993E364706816ABA3E25717850C26C9CD0D89D"));
    assert!(rt; !is_step_hash(b"a9993e364706816aba3e25717850c26c9cd0d89"));
    assert!(rt; !is_step_hash(b"a9993e364706816aba3e25717850c26c9cd0d89dd"));
    assert!(rt; !is_step_hash(b"g9993e364706816aba3e25717850c26c9cd0d89d"));
    Ok(())
}

#[test]
fn run_ids(rt: HostRuntime) -> Result<(), Fail> {
    assert_eq!(rt;
        run_id(1000, 1).as_slice(),
        b"00000000-03e8-7000-8000-000000000001".as_slice()
    );
    assert_eq!(rt;
        run_id((1 << 48) - 1, (1 << 62) - 1).as_slice(),
        b"ffffffff-ffff-7000-bfff-ffffffffffff".as_slice()
    );
    let rows: [(&[u8], Option<(u64, u64)>); 12] = [
        (b"00000000-03e8-7000-8000-000000000001", Some((1000, 1))),
        (
            b"FFFFFFFF-FFFF-7000-BFFF-FFFFFFFFFFFF",
            Some(((1 << 48) - 1, (1 << 62) - 1)),
        ),
        (b"{00000000-03e8-7000-8000-000000000001}", Some((1000, 1))),
        (
            b"urn:uuid:00000000-03e8-7000-8000-000000000001",
            Some((1000, 1)),
        ),
        (b"0000000003e870008000000000000001", Some((1000, 1))),
        (b"00000000-03e8-4000-8000-000000000001", None),
        (b"00000000-03e8-7001-8000-000000000001", None),
        (b"00000000-03e8-7000-4000-000000000001", None),
        (b"00000000-03e8-7000-c000-000000000001", None),
        (b"00000000-03e8-7000-8000-00000000001", None),
        (b"00000000-03e8-7000-8000-00000000000g", None),
        (b"", None),
    ];
    for (text, run) in rows {
        assert_eq!(rt; run_number(text), run);
    }
    Ok(())
}
