//! Checks three tables of texts in this crate's folder `data`: the file `refusals` against the reader of designs, the
//! file `planes` against the planes of designs and their ribs, and the file `sessions` against the reader of sessions
//! for the design in the file `design`.
//! It prints each line whose text gets another answer than the line says, and how many texts there are.
#![tactic(auto)]

mod designs;
mod planes;
mod sessions;
mod table;
mod words;

use designs::{Designs, design_of};
use planes::Planes;
use sessions::Sessions;
use std::{fs, io};
use table::check_table;

fn check_sessions(rt: &HostRuntime, text: &[u8]) -> io::Result<()> {
    match design_of(rt.alloc(), text) {
        Ok(design) => check_table(rt, &Sessions { design }, "sessions"),
        Err(_) => println!(rt; "the file `design` holds no design"),
    }
}

fn main(rt: HostRuntime) -> io::Result<()> {
    check_table(&rt, &Designs, "refusals")?;
    check_table(&rt, &Planes, "planes")?;
    let text = fs::read_to_string(&rt, "design")?;
    check_sessions(&rt, text.as_str().as_bytes())
}
