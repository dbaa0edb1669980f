// Primes, needs and essentials on worked examples.
use primes::{PrimeList, Work, primes};
use sources::TruthTable;
use std::test::Fail;
use terms::Refusal;

fn table(inputs: usize, on: &[usize], free: &[usize]) -> Result<TruthTable, Refusal> {
    let mut truth = TruthTable::new();
    truth.size(inputs)?;
    for &row in on {
        truth.mark(row, 1)?;
    }
    for &row in free {
        truth.mark(row, 2)?;
    }
    Ok(truth)
}

// ON where the count of ones is low to high.
fn symmetric(inputs: usize, low: u32, high: u32) -> Result<TruthTable, Refusal> {
    let mut truth = TruthTable::new();
    truth.size(inputs)?;
    // A loop: each turn marks the table.
    for row in 0..truth.rows() {
        if (low..=high).contains(&row.count_ones()) {
            truth.mark(row, 1)?;
        }
    }
    Ok(truth)
}

// The numbers of primes and of essentials.
fn counts(truth: &TruthTable, work: Work) -> Result<(usize, usize), Refusal> {
    let mut list = PrimeList::new();
    primes(truth, work, &mut list)?;
    let essentials = list
        .as_slice()
        .iter()
        .filter(|prime| prime.essential)
        .count();
    Ok((list.len(), essentials))
}

fn is_essential(list: &PrimeList, place: usize) -> bool {
    list.get(place).is_some_and(|prime| prime.essential)
}

// The number and the needs of the prime at a place.
fn figures(list: &PrimeList, place: usize) -> Option<(usize, usize)> {
    list.get(place).map(|prime| (prime.number, prime.needs))
}

#[test]
fn worked_counts(rt: HostRuntime) -> Result<(), Fail> {
    let nine = table(4, &[1, 4, 6, 7, 9, 10, 11, 13, 15], &[])?;
    assert_eq!(rt; counts(&nine, Work::Plain)?, (6, 4));
    let ring = table(3, &[1, 2, 3, 4, 5, 6], &[])?;
    assert_eq!(rt; counts(&ring, Work::Plain)?, (6, 0));
    let free = table(5, &[1, 4, 7, 14, 17, 20, 21, 22, 23], &[0, 3, 6, 19, 30])?;
    assert_eq!(rt; counts(&free, Work::Plain)?, (9, 1));
    Ok(())
}

#[test]
fn the_ends(rt: HostRuntime) -> Result<(), Fail> {
    assert_eq!(rt; counts(&symmetric(3, 0, 3)?, Work::Plain)?, (1, 1));
    assert_eq!(rt; counts(&table(3, &[], &[])?, Work::HazardFree)?, (0, 0));
    assert_eq!(rt;
        counts(&table(3, &[], &[0, 1, 2, 3, 4, 5, 6, 7])?, Work::Plain)?,
        (1, 0)
    );
    assert_eq!(rt; counts(&symmetric(7, 2, 4)?, Work::Plain)?, (210, 0));
    Ok(())
}

// 00-, 1-1 and -01: the pair of rows 1 and 5 makes -01 essential, which no row does.
#[test]
fn essential_by_a_pair(rt: HostRuntime) -> Result<(), Fail> {
    let truth = table(3, &[0, 1, 5, 7], &[])?;
    let mut list = PrimeList::new();
    primes(&truth, Work::Plain, &mut list)?;
    assert_eq!(rt; list.len(), 3);
    assert_eq!(rt; figures(&list, 0), Some((5, 2)));
    assert!(rt; !is_essential(&list, 0));
    primes(&truth, Work::HazardFree, &mut list)?;
    assert_eq!(rt; figures(&list, 0), Some((5, 3)));
    assert!(rt; is_essential(&list, 0));
    assert_eq!(rt; figures(&list, 1), Some((12, 3)));
    Ok(())
}

// 560 primes: refused, and the list is as it was.
#[test]
fn refused_list_keeps(rt: HostRuntime) -> Result<(), Fail> {
    let mut list = PrimeList::new();
    primes(&table(2, &[1], &[2, 3])?, Work::Plain, &mut list)?;
    assert_eq!(rt;
        primes(&symmetric(8, 3, 5)?, Work::Plain, &mut list),
        Err(Refusal::TooManyPrimes)
    );
    assert_eq!(rt; list.len(), 2);
    assert_eq!(rt; figures(&list, 0), Some((2, 1)));
    assert_eq!(rt; figures(&list, 1), Some((6, 0)));
    Ok(())
}
