// What a stroke table does when it is full, and after clearing.
use crate::*;
use geometry::Point;
use mark::{LineMode, Mark};
use sheet::{Refusal, Sheet};
use std::test::Fail;

// A record that no test's mark is kept as.
fn other() -> Stroke {
    Stroke {
        kind: Kind::Letter,
        from: Point { x: 1, y: 2 },
        to: Point { x: 3, y: 4 },
        mode: LineMode::Dotted,
        code: 126,
    }
}

fn dot(x: i16, y: i16) -> Mark {
    Mark::Dot { at: Point { x, y } }
}

#[test]
fn no_record_takes_no_mark(rt: HostRuntime) -> Result<(), Fail> {
    let mut records: [Stroke; 0] = [];
    ask(8, &records)?;
    let mut table = make(8, &mut records);
    assert_eq!(rt; table.mark(dot(0, 0)), Err(Refusal::Full));
    assert_eq!(rt; table.stock(), Some(0));
    assert_eq!(rt; Refusal::Full.number(), 17);
    Ok(())
}

#[test]
fn one_record_takes_one_mark(rt: HostRuntime) -> Result<(), Fail> {
    let mut records = [other()];
    ask(8, &records)?;
    let mut table = make(8, &mut records);
    assert_eq!(rt; table.mark(dot(0, 0)), Ok(()));
    assert_eq!(rt; table.mark(dot(-16384, 0)), Err(Refusal::Full));
    assert!(rt; table.inked((4, 3)) && !table.inked((0, 3)));
    Ok(())
}

#[test]
fn a_cleared_table_takes_one_again(rt: HostRuntime) -> Result<(), Fail> {
    let mut records = [other()];
    ask(8, &records)?;
    let mut table = make(8, &mut records);
    assert_eq!(rt; table.mark(dot(0, 0)), Ok(()));
    table.clear();
    assert_eq!(rt; table.mark(dot(-16384, 0)), Ok(()));
    assert!(rt; !table.inked((4, 3)) && table.inked((0, 3)));
    Ok(())
}

#[test]
fn free_records_are_untouched(rt: HostRuntime) -> Result<(), Fail> {
    let mut records = [other(); 3];
    assert_eq!(rt; first_mark(8, &mut records, dot(0, 0))?, Ok(()));
    assert_eq!(rt; records, [Stroke::from(dot(0, 0)), other(), other()]);
    Ok(())
}
