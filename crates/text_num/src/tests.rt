use crate::{NumFault, put_units, read_duration, read_u64, read_units};
use std::test::Fail;

const NOT: Result<u64, NumFault> = Err(NumFault::NotANumber);

const OUT: Result<u64, NumFault> = Err(NumFault::OutOfRange);

#[test]
fn whole_numbers(rt: HostRuntime) -> Result<(), Fail> {
    let rows: [(&[u8], Result<u64, NumFault>); 10] = [
        (b"0", Ok(0)),
        (b"00", Ok(0)),
        (b"0042", Ok(42)),
        (b"18446744073709551615", Ok(u64::MAX)),
        (b"18446744073709551616", OUT),
        (b"99999999999999999999999999999999999999999999999", OUT),
        (b"", NOT),
        (b"-1", NOT),
        (b"+1", NOT),
        (b" 1", NOT),
    ];
    for (text, number) in rows {
        assert_eq!(rt; read_u64(text), number);
    }
    Ok(())
}

#[test]
fn durations(rt: HostRuntime) -> Result<(), Fail> {
    let rows: [(&[u8], Result<u64, NumFault>); 22] = [
        (b"1h30m", Ok(5_400_000)),
        (b"1.5s", Ok(1_500)),
        (b"366d", Ok(31_622_400_000)),
        (b"366d1ms", OUT),
        (b"10", NOT),
        (b"1w", Ok(604_800_000)),
        (b"1.999s", Ok(1_999)),
        (b"0.0001s", Ok(0)),
        (b"1.9999ms0.9ms", Ok(1)),
        (b"1s1s", Ok(2_000)),
        (b"1s1h", Ok(3_601_000)),
        (b"1m1ms", Ok(60_001)),
        (b"0s", Ok(0)),
        (b"99999999999999999999999999999999999999999w", OUT),
        (b"1.000000001s", Ok(1_000)),
        (b"1.0000000001s", NOT),
        (b"1h30", NOT),
        (b"1.s", NOT),
        (b".5s", NOT),
        (b"1H", NOT),
        (b"1mss", NOT),
        (b"", NOT),
    ];
    for (text, millis) in rows {
        assert_eq!(rt; read_duration(text), millis);
    }
    Ok(())
}

#[test]
fn units(rt: HostRuntime) -> Result<(), Fail> {
    let not = Err(NumFault::NotANumber);
    let out = Err(NumFault::OutOfRange);
    let one: i128 = 1_000_000_000_000_000_000;
    let rows: [(&[u8], Result<i128, NumFault>); 30] = [
        (b"0", Ok(0)),
        (b"-0", Ok(0)),
        (b"-0.0e7", Ok(0)),
        (b"1", Ok(one)),
        (b"-1.5", Ok(-one - one / 2)),
        (b"1e3", Ok(1_000 * one)),
        (b"1E+3", Ok(1_000 * one)),
        (b"0.5e1", Ok(5 * one)),
        (b"1e-18", Ok(1)),
        (b"1e-19", out),
        (b"10e-19", Ok(1)),
        (b"0.1234567890123456789", out),
        (
            b"99999999999999999999.999999999999999999",
            Ok(100_000_000_000_000_000_000 * one - 1),
        ),
        (
            b"-99999999999999999999.999999999999999999",
            Ok(1 - 100_000_000_000_000_000_000 * one),
        ),
        (b"100000000000000000000", out),
        (b"1e20", out),
        (
            b"1000000000000000000000000000000000000000000000000000e-50",
            Ok(10 * one),
        ),
        (
            b"0.00000000000000000000000000000000000000000000000001e50",
            Ok(one),
        ),
        (
            b"100000000000000000000000000000000000000000000000001e-50",
            out,
        ),
        (b"1e99999999999999999999999999999999999999999999999999", out),
        (
            b"1e-99999999999999999999999999999999999999999999999999",
            out,
        ),
        (
            b"0e99999999999999999999999999999999999999999999999999",
            Ok(0),
        ),
        (
            b"1e000000000000000000000000000000000000000000000000001",
            Ok(10 * one),
        ),
        (b"01", not),
        (b"+1", not),
        (b"1.", not),
        (b".5", not),
        (b"1e", not),
        (b"1e+", not),
        (b"", not),
    ];
    for (text, number) in rows {
        assert_eq!(rt; read_units(text), number);
    }
    Ok(())
}

#[test]
fn units_written(rt: HostRuntime) -> Result<(), Fail> {
    let one: i128 = 1_000_000_000_000_000_000;
    let rows: [(i128, &[u8]); 8] = [
        (0, b"0"),
        (one, b"1"),
        (1_000_000_000_000_000_000 * one, b"1000000000000000000"),
        (-one - one / 2, b"-1.5"),
        (1, b"0.000000000000000001"),
        (-10, b"-0.00000000000000001"),
        (19_900_000_000_000_000_000, b"19.9"),
        (
            100_000_000_000_000_000_000 * one - 1,
            b"99999999999999999999.999999999999999999",
        ),
    ];
    for (units, text) in rows {
        let mut out = [0; 64];
        let len = put_units(units, &mut out);
        assert_eq!(rt; &out[..len], text);
    }
    Ok(())
}
