// What cannot be made, each at its boundary.
use geometry::Point;
use mark::Mark;
use sheet::Unfit;
use std::test::Fail;
use strokes::Stroke;

const SIDE: Result<(), Unfit> = Err(Unfit::Side);

const MEMORY: Result<(), Unfit> = Err(Unfit::Memory);

// A side, the length of the memory, and the answer to the asking for a bit sheet.
const BIT_SHEETS: [(u16, usize, Result<(), Unfit>); 17] = [
    (0, 0, SIDE),
    (7, 7, SIDE),
    (8, 7, MEMORY),
    (8, 8, Ok(())),
    (8, 9, MEMORY),
    (9, 9, MEMORY),
    (9, 17, MEMORY),
    (9, 18, Ok(())),
    (9, 19, MEMORY),
    (512, 32767, MEMORY),
    (512, 32768, Ok(())),
    (512, 32769, MEMORY),
    (2048, 524287, MEMORY),
    (2048, 524288, Ok(())),
    (2048, 524289, MEMORY),
    (2049, 524288, SIDE),
    (65535, 0, SIDE),
];

#[test]
fn bit_sheets_are_asked_for(rt: HostRuntime) -> Result<(), Fail> {
    let memory = vec![in rt.alloc(); 0u8; 524289]?;
    for (side, len, answer) in BIT_SHEETS {
        let part = memory
            .get(..len)
            .ok_or_else(|| Fail::new("the memory is too short"))?;
        assert_eq!(rt; raster::ask(side, part), answer);
    }
    Ok(())
}

// A side, how many records, and the answer to the asking for a stroke table.
const STROKE_TABLES: [(u16, usize, Result<(), Unfit>); 9] = [
    (7, 0, SIDE),
    (7, 65537, SIDE),
    (8, 0, Ok(())),
    (8, 1, Ok(())),
    (8, 65537, MEMORY),
    (2048, 65536, Ok(())),
    (2048, 65537, MEMORY),
    (2049, 65536, SIDE),
    (2049, 65537, SIDE),
];

#[test]
fn stroke_tables_are_asked_for(rt: HostRuntime) {
    let free = Stroke::from(Mark::Dot {
        at: Point::default(),
    });
    let records = [free; 65537];
    for (side, len, answer) in STROKE_TABLES {
        assert!(rt; len <= records.len());
        assert_eq!(rt; strokes::ask(side, &records[..len]), answer);
    }
}

#[test]
fn what_is_unfit_has_its_number(rt: HostRuntime) {
    assert_eq!(rt; Unfit::Side.number(), 18);
    assert_eq!(rt; Unfit::Memory.number(), 19);
}
