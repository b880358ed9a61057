// A job.
ghost use Rattle.std.specs.Prelude.{◌≤◌};

// A job that is fit to be drawn: the side of its sheet, and its stream.
#[derive(Clone, Copy)]
pub(crate) struct Job<'a> {
    pub(crate) side: u16,
    pub(crate) stream: &'a [u8],
    ghost least: { 8 ≤ side },
    ghost most: { side ≤ 512 },
}
