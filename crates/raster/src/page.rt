// A page of bits.
ghost use Rattle.std.specs.Prelude.{◌≡◌, ◌%◌, ◌<◌, true, length, None, Ok, unsigned_abs};
ghost use Rattle.mark.specs.Covers.{on_sheet, same_pixel};
ghost use Rattle.sheet.specs.Meanings.{blank, cleared};
ghost use Rattle.raster.specs.Asking.{asked};
ghost use Rattle.raster.specs.Bits.{row_bytes, page_bytes, bit_at, with_bit, byte_of, inked_at, Clean, Holds, bit_meaning};

use geometry::Side;
use mark::on_sheet;

// A sheet over lent memory: rows of whole bytes, the top row first, the leftmost pixel in the high bit, spare bits 0.
#[derive(Drop)]
pub struct BitSheet<'a> {
    pub(crate) bytes: &'a mut [u8],
    pub(crate) side: Side,
    ghost whole: { length bytes.now ≡ page_bytes side.pixels },
    ghost spare: { Clean side.pixels bytes.now },
}

// How many bytes a row of so many pixels has.
fn row_bytes(pixels: u16) -> usize
    ensures { result ≡ row_bytes pixels }
{
    (pixels as usize).div_ceil(8)
}

// How many bytes the page of a side has.
pub fn page_bytes(side: u16) -> usize
    ensures { result ≡ page_bytes side }
{
    row_bytes(side) * side as usize
}

// The byte with the bit set that stands at place k from the left.
#[tactic(auto, using(crate::proofs::Bytes::mask_is))]
pub(crate) fn with_bit(b: u8, k: u8) -> u8
    requires { k < 8 }
    ensures { result ≡ with_bit b k }
{
    b | (128 >> k)
}

// A cleared bit sheet over memory of the length of such a page.
fn wiped<'a>(side: Side, memory: &'a mut [u8]) -> BitSheet<'a>
    requires { length memory.old ≡ page_bytes side.pixels }
    ensures side { result.side.pixels ≡ side.pixels }
    ensures blank { bit_meaning result.side.pixels result.bytes.now ≡ blank side.pixels None }
    ensures named { result.bytes.ghost_name ≡ memory.entry.ghost_name }
{
    memory.fill(0);
    BitSheet {
        bytes: memory,
        side,
    }
}

// A cleared bit sheet over memory that was asked for and is fit; the project fixes that making requires the asking.
pub fn make<'a>(side: u16, memory: &'a mut [u8]) -> BitSheet<'a>
    requires { asked side (length memory.old) ≡ Ok tt }
    ensures side { result.side.pixels ≡ side }
    ensures blank { bit_meaning result.side.pixels result.bytes.now ≡ blank side None }
    ensures named { result.bytes.ghost_name ≡ memory.entry.ghost_name }
{
    wiped(Side::new(side).unwrap(), memory)
}

impl<'a> BitSheet<'a> {
    // The rows of the page, bit for bit.
    pub fn rows(&self) -> &[u8]
        ensures same { result.now ≡ self.now.bytes.now }
        ensures holds { Holds self.now.side.pixels result.now (inked_at self.now.side.pixels self.now.bytes.now) }
    {
        &self.bytes
    }

    // Which byte has the bit of a pixel.
    pub(crate) fn place(&self, pixel: (i32, i32)) -> usize
        requires { on_sheet self.now.side.pixels pixel ≡ true }
        ensures value { result ≡ byte_of self.now.side.pixels pixel }
        ensures inside { result < length self.now.bytes.now }
    {
        pixel.1 as usize * row_bytes(self.side.pixels()) + pixel.0 as usize / 8
    }

    // The bit of a pixel.
    pub(crate) fn bit(&self, pixel: (i32, i32)) -> bool
        requires { on_sheet self.now.side.pixels pixel ≡ true }
        ensures { result ≡ bit_at self.now.side.pixels self.now.bytes.now (unsigned_abs pixel.0) (unsigned_abs pixel.1) }
    {
        (self.bytes[self.place(pixel)] >> (7 - pixel.0 as u32 % 8)) % 2 == 1
    }

    // Makes every bit 0.
    pub(crate) fn wipe(&mut self)
        ensures after { bit_meaning self.new.side.pixels self.new.bytes.now ≡ cleared (bit_meaning self.old.side.pixels self.old.bytes.now) }
        ensures named { self.new.bytes.ghost_name ≡ self.old.bytes.ghost_name }
    {
        self.bytes.fill(0);
    }
}
