// Parts that are made, of no bytes read.
ghost use Rattle.std.specs.Prelude.{◌≡◌};

use crate::types::Part;

impl<'a> From<&'a [u8]> for Part<'a> {
    ghost from_gives = { λ bytes part. (part.at ≡ 0) × (part.bytes.now ≡ bytes.now) };

    fn from(bytes: &'a [u8]) -> Part<'a> {
        Part { at: 0, bytes }
    }
}
