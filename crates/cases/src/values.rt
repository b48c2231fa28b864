//! Plain units, and what the families make of a lot.
use terms::family::Family;
use terms::figures::worked_figures;
use terms::futures::Futures;
use terms::lot::Lot;
use terms::options::Options;
use terms::right::Right;
use terms::units;

#[test]
fn plain_units(rt: HostRuntime) {
    assert!(rt; units::is_day(60_000) && !units::is_day(60_001));
    assert!(rt; !units::is_price(0) && units::is_price(1));
    assert!(rt; units::is_price(1_000_000) && !units::is_price(1_000_001));
    assert!(rt; !units::is_units(0) && units::is_units(1));
    assert!(rt; units::is_units(400_000_000) && !units::is_units(400_000_001));
    assert!(rt; !units::is_number(0) && units::is_number(1) && units::is_number(4_294_967_295));
}

#[test]
fn families(rt: HostRuntime) {
    assert_eq!(rt;
        (Futures::lot_limit(), Futures::standard_letter()),
        (400_000_000, 'F')
    );
    assert_eq!(rt;
        (Options::lot_limit(), Options::standard_letter()),
        (200_000_000, 'O')
    );
    assert_eq!(rt; worked_figures(), 12);
}

// Slides: a lot bought at 19.00 gains 2,400 dollars at a final price of 20.00 with a claim worth 400.
#[test]
fn futures(rt: HostRuntime) {
    let lot = Lot {
        right: Right::Without,
        strike: 0,
        units: 20_000_000,
        strike_lot: 20_000_000,
        cash: 0,
    };
    assert_eq!(rt; Futures::trade_value(&lot, 1_900), 38_000_000_000);
    assert_eq!(rt; Futures::mark_value(&lot, 1_900), 38_000_000_000);
    assert_eq!(rt; Futures::final_value(&lot, 2_000, 400), 40_400_000_000);
}

// A strike of 50.00 on 2,000 shares, when the lot stands for 2,200 shares and 2,000 dollars.
#[test]
fn options(rt: HostRuntime) {
    let call = Lot {
        right: Right::Call,
        strike: 5_000,
        units: 22_000_000,
        strike_lot: 20_000_000,
        cash: 2_000,
    };
    let put = Lot {
        right: Right::Put,
        ..call
    };
    assert_eq!(rt; Options::trade_value(&call, 300), 6_000_000_000);
    assert_eq!(rt; Options::mark_value(&call, 300), 0);
    assert_eq!(rt; Options::final_value(&call, 5_200, 0), 16_400_000_000);
    assert_eq!(rt; Options::final_value(&put, 5_200, 0), 0);
    assert_eq!(rt; Options::final_value(&put, 4_000, 100), 9_900_000_000);
    assert_eq!(rt; Options::final_value(&call, 4_000, 100), 0);
}
