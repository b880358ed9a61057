// The calls of a reader.

// A call of a reader: a piece of the stream, its end, or the question how far the reader is.
#[derive(Clone, Copy, Debug, PartialEq, Eq)]
pub enum Call<'a> {
    Feed(&'a [u8]),
    Finish,
    Report,
}
