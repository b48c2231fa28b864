use crate::{Date, Decimal, Misread, read_date, read_decimal};
use std::test::Fail;

#[test]
fn decimals_are_read(rt: HostRuntime) {
    let table = [
        (b"78".as_slice(), 2, Ok(7800)),
        (b"78.00", 2, Ok(7800)),
        (b"0.05", 2, Ok(5)),
        (b"1.05", 9, Ok(1_050_000_000)),
        (b"007", 0, Ok(7)),
        (b"18446744073709551615", 0, Ok(u64::MAX)),
        (b"18.446744073709551615", 18, Ok(u64::MAX)),
        (b"18446744073709551616", 0, Err(Misread::TooLarge)),
        (b"184467440737095516.16", 2, Err(Misread::TooLarge)),
        (b"1", 19, Err(Misread::TooLarge)),
        (b"1.050", 2, Err(Misread::TooManyDecimals)),
        (b"1.0", 0, Err(Misread::TooManyDecimals)),
        (b"", 2, Err(Misread::NotANumber)),
        (b".", 2, Err(Misread::NotANumber)),
        (b".5", 2, Err(Misread::NotANumber)),
        (b"5.", 2, Err(Misread::NotANumber)),
        (b"1.2.3", 2, Err(Misread::NotANumber)),
        (b"-1", 2, Err(Misread::NotANumber)),
        (b"+1", 2, Err(Misread::NotANumber)),
        (b" 1", 2, Err(Misread::NotANumber)),
        (b"2,000", 2, Err(Misread::NotANumber)),
    ];
    for (text, places, answer) in table {
        assert_eq!(rt; read_decimal(text, places), answer);
    }
}

#[test]
fn decimals_are_written(rt: HostRuntime) -> Result<(), Fail> {
    let table = [
        (320_000, 2, "3,200.00", "3,200"),
        (3_200, 0, "3,200", "3,200"),
        (1_398_873, 4, "139.8873", "139.8873"),
        (1_050_000_000, 9, "1.050000000", "1.05"),
        (5, 3, "0.005", "0.005"),
        (0, 2, "0.00", "0"),
        (
            u64::MAX,
            0,
            "18,446,744,073,709,551,615",
            "18,446,744,073,709,551,615",
        ),
        (
            1_000_007,
            20,
            "0.00000000000001000007",
            "0.00000000000001000007",
        ),
    ];
    for (value, places, full, short) in table {
        let decimal = Decimal { value, places };
        assert!(rt; decimal.to_string(rt.alloc())?.as_str() == full);
        assert!(rt; decimal.trimmed().to_string(rt.alloc())?.as_str() == short);
    }
    assert!(rt; Misread::TooLarge.to_string(rt.alloc())?.as_str() == "too large");
    Ok(())
}

#[test]
fn dates_have_days(rt: HostRuntime) -> Result<(), Fail> {
    let table = [
        ("2000-01-01", Some(0)),
        ("2000-02-29", Some(59)),
        ("2000-12-31", Some(365)),
        ("2001-01-01", Some(366)),
        ("2022-06-21", Some(8207)),
        ("2100-02-28", Some(36583)),
        ("2100-03-01", Some(36584)),
        ("2164-04-10", Some(60000)),
        ("2179-06-06", Some(65535)),
        ("2179-06-07", None),
        ("9999-12-31", None),
        ("1999-12-31", None),
        ("2100-02-29", None),
        ("2022-00-10", None),
        ("2022-13-01", None),
        ("2022-04-31", None),
        ("2022-04-00", None),
        ("2022-6-21", None),
        ("2022/06/21", None),
        ("2022-06-2x", None),
        ("2022-06-211", None),
        ("", None),
    ];
    for (text, answer) in table {
        assert_eq!(rt; read_date(text.as_bytes()), answer);
        if let Some(day) = answer {
            assert!(rt; Date::from_day(day).to_string(rt.alloc())?.as_str() == text);
        }
    }
    Ok(())
}
