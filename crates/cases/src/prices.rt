//! Reference prices and claims.
use terms::claim::Claim;
use terms::reference::reference_price;
use terms::refusal::Refusal;
use terms::units::ONE;

/// A price, cash per share and a ratio; then the reference price, or the number of a refusal.
const PRICES: [(u32, u32, u64, Result<u32, u8>); 24] = [
    // Slides: dividend, stock dividend, losses, cash paid back, two conversions.
    (7_800, 3_000_000, ONE, Ok(7_500)),
    (2_100, 0, 1_050_000_000, Ok(2_000)),
    (1_260, 0, 900_000_000, Ok(1_400)),
    (7_400, 2_000_000, 800_000_000, Ok(9_000)),
    (1_980, 11_550_000, 550_000_000, Ok(1_500)),
    (1_820, 0, ONE, Ok(1_820)),
    // Description of option adjustments: 1 dollar and 0.2 shares at 58.00.
    (5_800, 1_000_000, 1_200_000_000, Ok(4_750)),
    // To the nearest cent, halves up.
    (2_001, 0, 2_000_000_000, Ok(1_001)),
    (1_000, 0, 3_000_000_000, Ok(333)),
    (2_000, 0, 3_000_000_000, Ok(667)),
    // The price is not above the cash, or comes to less than half a cent, or to too much.
    (7_800, 78_000_000, ONE, Err(7)),
    (7_800, 78_000_001, ONE, Err(7)),
    (7_800, 77_995_001, ONE, Err(7)),
    (7_800, 77_995_000, ONE, Ok(1)),
    (1_000_000, 0, ONE, Ok(1_000_000)),
    (1_000_000, 0, 999_999_600, Ok(1_000_000)),
    (1_000_000, 0, 999_999_500, Err(7)),
    // Numbers outside their units, before anything else.
    (0, 0, ONE, Err(2)),
    (1_000_001, 0, ONE, Err(2)),
    (1_000_000, 500_000_000, ONE, Ok(950_000)),
    (1_000_000, 500_000_001, ONE, Err(2)),
    (1, 0, 0, Err(2)),
    (1_000_000, 0, 10_000_000_000, Ok(100_000)),
    (1, 500_000_000, 10_000_000_001, Err(2)),
];

#[test]
fn reference_prices(rt: HostRuntime) {
    for &(price, cash, ratio, expected) in &PRICES {
        let found = reference_price(price, cash, ratio).map_err(Refusal::number);
        assert_eq!(rt; found, expected);
    }
}

/// A claim's units and subscription price, a close, and the dollars. Slides: 100 shares at 16.30;
/// description of option adjustments: 100 shares at 50.00.
const CLAIMS: [(u32, u32, u32, u64); 9] = [
    (1_000_000, 1_630, 2_030, 400),
    (1_000_000, 1_630, 1_830, 200),
    (1_000_000, 1_630, 1_630, 0),
    (1_000_000, 1_630, 1_000, 0),
    (1_000_000, 5_000, 6_300, 1_300),
    (1_000_000, 5_000, 6_500, 1_500),
    (1_398_873, 3_000, 3_920, 1_286),
    (0, 1, 1_000_000, 0),
    (400_000_000, 1, 1_000_000, 399_999_600),
];

#[test]
fn claims(rt: HostRuntime) {
    for &(units, price, close, dollars) in &CLAIMS {
        let claim = Claim::Open {
            units,
            price,
            deadline: 1,
        };
        assert_eq!(rt; claim.dollars_at(close), dollars);
    }
    assert_eq!(rt; Claim::Absent.dollars_at(1_000_000), 0);
    assert_eq!(rt; Claim::Fixed { dollars: 7 }.dollars_at(1), 7);
}
