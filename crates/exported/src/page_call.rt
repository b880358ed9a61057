// A stream drawn on a bit sheet for a caller that is not proved.
ghost use Rattle.std.specs.Prelude.{◌≡◌, length, Ok};
ghost use Rattle.raster.specs.Asking.{asked};
ghost use Rattle.play.specs.Plays.{New};
ghost use Rattle.raster.specs.Bits.{Clean, bit_meaning};
ghost use Rattle.run.specs.Runs.{report_of};
ghost use Rattle.job.specs.Jobs.{drawing};
ghost use Rattle.exported.specs.Answers.{PageAnswered};

use crate::answers::{NO_MEMORY, life_number};
use play::play_even;
use reader::reader::Reader;
use run::types::Report;
use std::alloc::Global;

// Draws a stream in pieces of one length on a clear bit sheet in this memory, and reports.
fn draw_on(reader: &mut Reader, side: u16, memory: &mut [u8], stream: &[u8], piece: usize) -> Report
    requires { asked side (length memory.old) ≡ Ok tt }
    ensures report { New reader.old → result ≡ report_of (drawing side stream.now) }
    ensures page { New reader.old → bit_meaning side memory.new ≡ (drawing side stream.now).drawing.ink.sheet }
    ensures spare { Clean side memory.new }
{
    let mut sheet = raster::make(side, memory);
    play_even(reader, &mut sheet, stream, piece)
}

// Draws a stream on a clear bit sheet of a side in lent memory, in pieces of one length (0: whole), and answers the number of its fault, or 0; a side or memory that is unfit is refused by its number, and nothing is altered.
#[unsafe(no_mangle)]
pub extern "C" fn wiefturn_draw_page(
    heap: Global,
    side: u16,
    memory: &mut [u8],
    stream: &[u8],
    piece: usize,
) -> u8
    ensures { PageAnswered side stream.now memory.old result memory.new }
{
    if let Err(unfit) = raster::ask(side, memory) {
        return unfit.number();
    }
    let Ok(mut reader) = Reader::new(heap) else {
        return NO_MEMORY;
    };
    life_number(draw_on(&mut reader, side, memory, stream, piece).life)
}
