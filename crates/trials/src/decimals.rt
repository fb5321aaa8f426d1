// Decimal numbers in text.
use std::test::Fail;
use values::decimal::{DecimalFault, Yuan, read_decimal};

#[test]
fn reads_amounts(rt: HostRuntime) {
    for (text, units) in [
        ("18", 180_000),
        ("18.4", 184_000),
        ("16.9280", 169_280),
        ("007.50", 75_000),
        ("0", 0),
        ("0.0999", 999),
        ("429496.7295", u32::MAX),
    ] {
        assert_eq!(rt; read_decimal(text, 4), Ok(units), "{}", text);
    }
    assert_eq!(rt; read_decimal("8", 2), Ok(800));
    assert_eq!(rt; read_decimal("0.10", 2), Ok(10));
    assert_eq!(rt; read_decimal("0", 255), Ok(0));
}

#[test]
fn refuses_what_is_no_amount(rt: HostRuntime) {
    for text in [
        "",
        ".",
        "18.",
        ".5",
        "1.2.3",
        "+1",
        "-1",
        "1e3",
        " 1",
        "1_000",
        "1.2x",
        "99999999999.",
    ] {
        assert_eq!(rt;
            read_decimal(text, 4),
            Err(DecimalFault::Malformed),
            "{}",
            text
        );
    }
    for text in ["1.00000", "99999999999.00000"] {
        assert_eq!(rt;
            read_decimal(text, 4),
            Err(DecimalFault::TooManyDecimals),
            "{}",
            text
        );
    }
    for text in [
        "429496.7296",
        "429497",
        "999999999999999999999999999999999999999999",
    ] {
        assert_eq!(rt;
            read_decimal(text, 4),
            Err(DecimalFault::TooLarge),
            "{}",
            text
        );
    }
    assert_eq!(rt; read_decimal("1", 255), Err(DecimalFault::TooLarge));
}

#[test]
fn shows_amounts(rt: HostRuntime) -> Result<(), Fail> {
    let heap = rt.alloc();
    for (units, text) in [
        (169_280, "16.9280"),
        (0, "0.0000"),
        (999, "0.0999"),
        (u32::MAX, "429496.7295"),
    ] {
        assert_eq!(rt; Yuan(units).text(heap)?.as_str(), text);
    }
    Ok(())
}
