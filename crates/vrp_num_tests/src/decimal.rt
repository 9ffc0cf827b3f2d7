//! Tests of decimal numbers.
use std::test::Fail;
use vrp_num::{Decimal, NumberFault};

#[test]
fn texts(rt: HostRuntime) {
    for (text, expected) in [
        ("1.5e1", Ok(15_000_000)),
        ("5.", Ok(5_000_000)),
        (".", Err(NumberFault::NotNumber)),
        ("1e13", Err(NumberFault::TooLarge)),
        ("1e-7", Err(NumberFault::TooFine)),
        ("", Err(NumberFault::NotNumber)),
        ("-.25E+2", Ok(-25_000_000)),
        ("-0", Ok(0)),
        ("1000000000000", Ok(1_000_000_000_000_000_000)),
        ("-1e12", Ok(-1_000_000_000_000_000_000)),
        ("1000000000000.0000001", Err(NumberFault::TooLarge)),
        ("999999999999.9999999", Err(NumberFault::TooFine)),
        ("1e", Err(NumberFault::NotNumber)),
        ("1e+", Err(NumberFault::NotNumber)),
        ("1.2.3", Err(NumberFault::NotNumber)),
        ("+-1", Err(NumberFault::NotNumber)),
        ("1e-1000000", Err(NumberFault::TooFine)),
        ("0e999999999999999999999", Ok(0)),
        ("1e999999999999999999999", Err(NumberFault::TooLarge)),
        ("1e-999999999999999999999", Err(NumberFault::TooFine)),
        ("0.000000000000000000000000000000001e33", Ok(1_000_000)),
        ("1000000000000000000000000000000000e-33", Ok(1_000_000)),
        ("36893488147419103233", Err(NumberFault::TooLarge)),
    ] {
        let micro = Decimal::read(text.as_bytes()).map(|decimal| decimal.micro);
        assert_eq!(rt; micro, expected, "{text}");
    }
}

#[test]
fn a_million_digits(rt: HostRuntime) -> Result<(), Fail> {
    let digits = vec![in rt.alloc(); b'7'; 1_000_000]?;
    let large = [b"1e", digits.as_slice()].concat(rt.alloc())?;
    let fine = [b"1e-", digits.as_slice()].concat(rt.alloc())?;
    assert_eq!(rt; Decimal::read(&digits), Err(NumberFault::TooLarge));
    assert_eq!(rt; Decimal::read(&large), Err(NumberFault::TooLarge));
    assert_eq!(rt; Decimal::read(&fine), Err(NumberFault::TooFine));
    Ok(())
}

#[test]
fn whole_numbers(rt: HostRuntime) {
    for (micro, expected) in [
        (0, Some(0)),
        (3_000_000, Some(3)),
        (-2_000_000, Some(-2)),
        (1_500_000, None),
        (-1, None),
    ] {
        assert_eq!(rt; Decimal { micro }.whole(), expected, "{micro} millionths");
    }
}
