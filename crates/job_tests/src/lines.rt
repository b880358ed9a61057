// The report line that a job of side 8 prints.
use job::draw_job;
use reader::reader::Reader;
use std::alloc::Global;
use std::test::Fail;

// Eight rows of eight pixels and a line end come before the report.
const PAGE: usize = 72;

// More than a page of side 8 and its report take.
const ROOM: usize = 300;

// Draws a job of side 8, and compares its report line.
pub(crate) fn reports(heap: Global, job: &[u8], line: &[u8]) -> Result<(), Fail> {
    let mut reader = Reader::new(heap)?;
    let mut out = [0u8; ROOM];
    let Ok(count) = draw_job(&mut reader, job, &mut out) else {
        return Err(Fail::new("the job is refused"));
    };
    if out.get(PAGE..count) == Some(line) {
        Ok(())
    } else {
        Err(Fail::new("another line"))
    }
}
