// Which jobs are drawn.
ghost use Rattle.std.specs.Prelude.{◌≡◌, ◌≤◌, Ok, Err, MatchResult};
ghost use Rattle.job.specs.Jobs.{admission, stream_of};

use crate::job::Job;
use crate::refusal::Refusal;

// The bytes of the longest job.
const LONGEST: usize = 65_538;

// The job in these bytes, if it is fit to be drawn: its length is looked at first.
pub(crate) fn admit(bytes: &[u8]) -> Result<Job<'_>, Refusal>
    ensures { MatchResult result (λ job. (admission bytes.now ≡ Ok job.side) × (job.stream.now ≡ stream_of bytes.now)) (λ e. admission bytes.now ≡ Err e) }
{
    let [high, low, stream @ ..] = bytes else {
        return Err(Refusal::Length);
    };
    if bytes.len() > LONGEST {
        return Err(Refusal::Length);
    }
    let side = u16::from_be_bytes([*high, *low]);
    if !(8..=512).contains(&side) {
        return Err(Refusal::Side);
    }
    Ok(Job { side, stream })
}
