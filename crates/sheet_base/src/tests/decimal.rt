// Sums and products.
use base_decimal::Decimal;

#[test]
fn adds_and_scales(rt: HostRuntime) {
    let tenth = Decimal {
        mantissa: 1,
        places: 1,
    };
    let two = Decimal {
        mantissa: -2,
        places: 0,
    };
    let sum = Decimal {
        mantissa: -19,
        places: 1,
    };
    assert_eq!(rt; tenth.add(&two), sum);
    let product = Decimal {
        mantissa: -6,
        places: 0,
    };
    assert_eq!(rt; two.scale(3), product);
}
