// Totals under the three orders, worked by hand.
use orders::{AnyOrder, CostOrder, Count, Longest, Price, cost};
use std::test::Fail;
use terms::{Refusal, Term};

// 01-0 and 1---: two terms, three contacts and one.
fn pair() -> Result<[Term; 2], Refusal> {
    Ok([Term::new(4, 0b1101, 0b0100)?, Term::new(4, 0b1000, 0b1000)?])
}

#[test]
fn three_totals(rt: HostRuntime) -> Result<(), Fail> {
    let terms = pair()?;
    assert_eq!(rt; cost(&Count, &terms), Some((2, 4)));
    assert_eq!(rt; cost(&Price::new(), &terms), Some(6));
    assert_eq!(rt; cost(&Longest, &terms), Some(3));
    assert_eq!(rt; cost(&Longest, &[]), Some(0));
    assert_eq!(rt; cost(&Count, &[]), Some((0, 0)));
    Ok(())
}

#[test]
fn prices_by_input(rt: HostRuntime) -> Result<(), Fail> {
    let terms = pair()?;
    let mut price = Price::new();
    price.set_prices([10, 1, 2, 4, 1000, 0, 0, 0, 0])?;
    assert_eq!(rt; cost(&price, &terms), Some(2025));
    assert_eq!(rt;
        price.set_prices([0, 0, 0, 0, 0, 0, 0, 0, 1001]),
        Err(Refusal::PriceTooHigh)
    );
    assert_eq!(rt; cost(&price, &terms), Some(2025));
    Ok(())
}

#[test]
fn one_of_three(rt: HostRuntime) -> Result<(), Fail> {
    let terms = pair()?;
    assert_eq!(rt; cost(&AnyOrder::Count(Count), &terms), Some((2, 4)));
    assert_eq!(rt; cost(&AnyOrder::Price(Price::new()), &terms), Some((6, 0)));
    assert_eq!(rt; cost(&AnyOrder::Longest(Longest), &terms), Some((3, 0)));
    Ok(())
}

// Numbers in a total stop; count looks at terms before contacts.
#[test]
fn the_ends(rt: HostRuntime) {
    assert_eq!(rt; Price::new().join(u32::MAX, 7), u32::MAX);
    assert_eq!(rt; Count.join((1, u32::MAX), (2, 1)), (3, u32::MAX));
    assert!(rt; Count.at_most((1, 9), (2, 0)) && !Count.at_most((2, 0), (1, 9)));
    assert!(rt; Longest.at_most(3, 3));
}
