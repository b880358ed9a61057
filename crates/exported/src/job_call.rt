// A job drawn for a caller that is not proved.
ghost use Rattle.exported.specs.Answers.{JobAnswered};

use crate::answers::{Drawn, NO_MEMORY};
use job::draw_job_cut;
use reader::reader::Reader;
use std::alloc::Global;

// Draws a job whose stream comes in pieces of these lengths and then the rest; whatever they are, the answer and every byte of the buffer are those of the whole.
#[unsafe(no_mangle)]
pub extern "C" fn wiefturn_draw_job(
    heap: Global,
    job: &[u8],
    lengths: &[u8],
    out: &mut [u8],
) -> Drawn
    ensures { JobAnswered job.now out.old result out.new }
{
    let Ok(mut reader) = Reader::new(heap) else {
        return Drawn {
            printed: 0,
            refusal: NO_MEMORY,
        };
    };
    Drawn::from(draw_job_cut(&mut reader, job, lengths, out))
}
