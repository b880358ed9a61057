// Draws the specimen on a bit sheet of side 512, and prints its rows that bear ink.
#![tactic(auto)]

use anyhow::{anyhow, ensure};
use specimen_page::{draw_specimen, first_row, inked_pixels, past_rows, row_text};
use std::io::Write;

const SIDE: u16 = 512;

const BYTES: usize = 32768;

fn main(rt: HostRuntime) -> anyhow::Result<()> {
    let mut memory = [0u8; BYTES];
    raster::ask(SIDE, &memory).map_err(|_| anyhow!("the memory does not fit"))?;
    let mut page = raster::make(SIDE, &mut memory);
    ensure!(draw_specimen(&mut page), "the sheet is full");
    for row in first_row(&page)..past_rows(&page) {
        rt.stdout().write_all(&row_text(&page, row))?;
        println!(rt)?;
    }
    let inked = inked_pixels(&page);
    println!(rt; "{inked} pixels inked")?;
    Ok(())
}
