// Term lists, and layers piled on any source.
use layers::{Cofactor, Complement};
use sources::{Source, TermList, TruthTable};
use std::test::Fail;
use terms::{Failure, Mark, Refusal};

// A row that both lists reach is ON; terms may repeat and overlap.
#[test]
fn first_list_wins(rt: HostRuntime) -> Result<(), Fail> {
    let mut list = TermList::new(rt.alloc());
    list.fill(
        rt.alloc(),
        2,
        &[(0b11, 0b01), (0b11, 0b01)],
        &[(0b01, 0b01), (0b10, 0b10)],
    )?;
    assert_eq!(rt; list.look(0)?, Mark::Off);
    assert_eq!(rt; list.look(1)?, Mark::On);
    assert_eq!(rt; list.look(2)?, Mark::Free);
    assert_eq!(rt; list.look(3)?, Mark::Free);
    assert_eq!(rt; list.look(4), Err(Refusal::NoSuchRow));
    Ok(())
}

#[test]
fn refused_fill_keeps(rt: HostRuntime) -> Result<(), Fail> {
    let mut list = TermList::new(rt.alloc());
    list.fill(rt.alloc(), 1, &[(1, 1)], &[])?;
    assert_eq!(rt;
        list.fill(rt.alloc(), 9, &[(1, 2)], &[]),
        Err(Failure::Refused(Refusal::InputsOutOfRange))
    );
    assert_eq!(rt;
        list.fill(rt.alloc(), 2, &[], &[(4, 0)]),
        Err(Failure::Refused(Refusal::MalformedTerm))
    );
    assert_eq!(rt; list.inputs(), 1);
    assert_eq!(rt; list.look(1)?, Mark::On);
    Ok(())
}

// Rows 0 to 7 of three inputs: OFF ON FREE OFF ON OFF FREE ON.
fn sample() -> Result<TruthTable, Refusal> {
    let mut truth = TruthTable::new();
    truth.size(3)?;
    truth.mark(1, 1)?;
    truth.mark(2, 2)?;
    truth.mark(4, 1)?;
    truth.mark(6, 2)?;
    truth.mark(7, 1)?;
    Ok(truth)
}

#[test]
fn three_layers(rt: HostRuntime) -> Result<(), Fail> {
    let mut pile = Complement::new(Cofactor::new(Complement::new(sample()?)));
    assert_eq!(rt; pile.look(1)?, Mark::On);
    let mut tied = pile.into_below();
    tied.set(1, true)?;
    pile = Complement::new(tied);
    assert_eq!(rt; pile.inputs(), 2);
    assert_eq!(rt; pile.look(0)?, Mark::Free);
    assert_eq!(rt; pile.look(1)?, Mark::Off);
    assert_eq!(rt; pile.look(2)?, Mark::Free);
    assert_eq!(rt; pile.look(3)?, Mark::On);
    assert_eq!(rt; pile.look(4), Err(Refusal::NoSuchRow));
    Ok(())
}

// A cofactor of a cofactor: rows 2 and 3 of the sample, by tying input 2 to 0 and then input 1 to 1.
#[test]
fn tied_twice(rt: HostRuntime) -> Result<(), Fail> {
    let mut once = Cofactor::new(sample()?);
    once.set(2, false)?;
    let mut twice = Cofactor::new(once);
    twice.set(1, true)?;
    assert_eq!(rt; twice.inputs(), 1);
    assert_eq!(rt; twice.look(0)?, Mark::Free);
    assert_eq!(rt; twice.look(1)?, Mark::Off);
    twice.release();
    assert_eq!(rt; twice.inputs(), 2);
    assert_eq!(rt; twice.look(1)?, Mark::On);
    Ok(())
}

#[test]
fn ties_refused_in_order(rt: HostRuntime) -> Result<(), Fail> {
    let mut tie = Cofactor::new(TruthTable::new());
    assert_eq!(rt; tie.set(1, true), Err(Refusal::NoSuchInput));
    assert_eq!(rt; tie.set(0, true), Err(Refusal::OnlyInput));
    assert_eq!(rt; tie.inputs(), 1);
    let mut wide = TruthTable::new();
    wide.size(8)?;
    wide.mark(128 + 64, 1)?;
    let mut tie = Cofactor::new(wide);
    tie.set(7, true)?;
    assert_eq!(rt; tie.look(64)?, Mark::On);
    assert_eq!(rt; tie.set(8, false), Err(Refusal::NoSuchInput));
    assert_eq!(rt; tie.look(64)?, Mark::On);
    tie.set(6, true)?;
    assert_eq!(rt; tie.look(64)?, Mark::On);
    assert_eq!(rt; tie.look(127)?, Mark::Off);
    assert_eq!(rt; tie.look(128), Err(Refusal::NoSuchRow));
    Ok(())
}

#[test]
fn two_questions(rt: HostRuntime) -> Result<(), Fail> {
    let truth = sample()?;
    assert!(rt; truth.is_on(1) && !truth.is_on(2) && !truth.is_on(8));
    assert!(rt; truth.is_off(0) && !truth.is_off(2) && !truth.is_off(8));
    Ok(())
}
