// Headers of definitions as bytes.
ghost use Rattle.std.specs.Prelude.{◌≡◌};
ghost use Rattle.std.specs.Option.{ok_or};
ghost use Rattle.statement.specs.declared.types.Fault.TheVariants.{WrongLayout};
ghost use Rattle.statement.specs.Reading.{header_of, header_byte};

use crate::types::{Fault, Header};

impl TryFrom<u8> for Header {
    type Error = Fault;

    ghost try_from_gives = { λ byte result. result ≡ ok_or (header_of byte) WrongLayout };

    // The header that a byte is, if it is one.
    fn try_from(byte: u8) -> Result<Header, Fault> {
        match byte {
            0x80 => Ok(Header::Simple),
            0x40 => Ok(Header::Full),
            0xC0 => Ok(Header::Both),
            _ => Err(Fault::WrongLayout),
        }
    }
}

impl From<Header> for u8 {
    ghost from_gives = { λ header byte. byte ≡ header_byte header };

    // The byte of a header.
    fn from(header: Header) -> u8 {
        header as u8
    }
}
