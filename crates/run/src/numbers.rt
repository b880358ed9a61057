// The number and the layer of each fault.
ghost use Rattle.std.specs.Prelude.{◌≡◌};
ghost use Rattle.run.specs.Faults.{number_of, layer_of};

use crate::types::{Fault, Layer};
use statement::types::Fault as Unread;

impl Fault {
    // The number under which the fault is refused.
    pub fn number(self) -> u8
        ensures { result ≡ number_of self }
    {
        match self {
            Fault::Read(f) => f.number(),
            Fault::NoRoom => 8,
            Fault::OffField => 9,
            Fault::MarksFull => 10,
            Fault::NotCallable => 11,
            Fault::AlreadyOpen => 12,
            Fault::TooDeep => 13,
            Fault::TooMany => 14,
            Fault::Unfinished => 16,
            Fault::SheetFull => 17,
        }
    }

    // The layer that refuses the fault.
    pub fn layer(self) -> Layer
        ensures { result ≡ layer_of self }
    {
        match self {
            Fault::Read(
                Unread::UnknownCode | Unread::ShortCount | Unread::TooLong | Unread::StreamTooLong,
            )
            | Fault::Unfinished => Layer::Bytes,
            Fault::Read(_) | Fault::NoRoom => Layer::Statement,
            Fault::SheetFull => Layer::Sheet,
            _ => Layer::Performance,
        }
    }
}
