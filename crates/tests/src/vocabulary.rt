// Marks, terms and their numbers, on worked examples.
use std::test::Fail;
use terms::{Mark, Refusal, Term, weight};

#[test]
fn weights(rt: HostRuntime) {
    assert_eq!(rt; weight(0), 0);
    assert_eq!(rt; weight(0b1000_0000), 2187);
    assert_eq!(rt; weight(255), 3280);
}

// 01-0 reads inputs 3, 2 and 0, and wants input 2 at 1.
#[test]
fn written_terms(rt: HostRuntime) -> Result<(), Fail> {
    let term = Term::new(4, 0b1101, 0b0100)?;
    assert_eq!(rt; term.number(), 46);
    assert_eq!(rt; term.contacts(), 3);
    assert_eq!(rt; term.written(rt.alloc(), 4)?.as_str(), "01-0");
    assert!(rt; term.holds(4) && term.holds(6));
    assert!(rt; !term.holds(5) && !term.holds(12));
    Ok(())
}

#[test]
fn numbers_at_the_ends(rt: HostRuntime) -> Result<(), Fail> {
    assert_eq!(rt; Term::new(8, 0, 0)?.number(), 0);
    assert_eq!(rt; Term::new(8, 255, 255)?.number(), 6560);
    assert!(rt; Term::new(1, 1, 0)?.is_earlier(Term::new(1, 1, 1)?));
    Ok(())
}

#[test]
fn malformed_terms(rt: HostRuntime) {
    assert_eq!(rt; number_refusing(3, 0b1000, 0), Some(4));
    assert_eq!(rt; number_refusing(4, 0b0101, 0b0010), Some(4));
    assert_eq!(rt; number_refusing(0, 1, 0), Some(4));
    assert_eq!(rt; number_refusing(9, 255, 255), None);
}

// The number of the refusal, where there is one.
fn number_refusing(inputs: usize, mask: u8, levels: u8) -> Option<u8> {
    Term::new(inputs, mask, levels).err().map(u8::from)
}

#[test]
fn codes(rt: HostRuntime) -> Result<(), Fail> {
    assert_eq!(rt; Mark::try_from(2)?, Mark::Free);
    assert_eq!(rt; Mark::try_from(3), Err(Refusal::NoSuchMark));
    assert_eq!(rt; usize::from(Mark::On), 1);
    Ok(())
}
