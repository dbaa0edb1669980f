// The truth table and sequences of calls on one.
use sources::{Call, Source, TruthTable, run_calls};
use std::test::Fail;
use terms::{Mark, Refusal};

#[test]
fn eight_inputs(rt: HostRuntime) -> Result<(), Fail> {
    let mut truth = TruthTable::new();
    truth.size(8)?;
    truth.sweep(0b1000_0001, 0b1000_0000, 1)?;
    truth.mark(255, 2)?;
    assert_eq!(rt; truth.look(128)?, Mark::On);
    assert_eq!(rt; truth.look(254)?, Mark::On);
    assert_eq!(rt; truth.look(129)?, Mark::Off);
    assert_eq!(rt; truth.look(255)?, Mark::Free);
    assert_eq!(rt; truth.look(256), Err(Refusal::NoSuchRow));
    truth.size(8)?;
    assert_eq!(rt; truth.look(254)?, Mark::Off);
    Ok(())
}

// Where two rules are broken, the first in the order is told.
#[test]
fn refusals_in_order(rt: HostRuntime) -> Result<(), Fail> {
    let mut truth = TruthTable::new();
    assert_eq!(rt; truth.size(0), Err(Refusal::InputsOutOfRange));
    assert_eq!(rt; truth.size(9), Err(Refusal::InputsOutOfRange));
    assert_eq!(rt; truth.mark(2, 3), Err(Refusal::NoSuchRow));
    assert_eq!(rt; truth.mark(1, 3), Err(Refusal::NoSuchMark));
    assert_eq!(rt; truth.sweep(2, 0, 3), Err(Refusal::MalformedTerm));
    assert_eq!(rt; truth.sweep(1, 1, 3), Err(Refusal::NoSuchMark));
    assert_eq!(rt; truth.look(1)?, Mark::Off);
    Ok(())
}

#[test]
fn a_sequence(rt: HostRuntime) -> Result<(), Fail> {
    let calls = [
        Call::Mark { row: 1, code: 1 },
        Call::Look { row: 1 },
        Call::Size { inputs: 3 },
        Call::Look { row: 1 },
        Call::Look { row: 8 },
    ];
    let outcomes = run_calls(rt.alloc(), &calls)?;
    assert!(rt; outcomes.len() == 5);
    assert_eq!(rt; outcomes[0], Ok(None));
    assert_eq!(rt; outcomes[1], Ok(Some(Mark::On)));
    assert_eq!(rt; outcomes[2], Ok(None));
    assert_eq!(rt; outcomes[3], Ok(Some(Mark::Off)));
    assert_eq!(rt; outcomes[4], Err(Refusal::NoSuchRow));
    Ok(())
}
