//! Times what the layers below do. With the word `run` it prints a line for each measurement,
//! `NAME: FIGURE MB/s`, where a MB is 10^6 bytes, and what the checksums gave; with any other word or
//! none it prints how it is called.
//!
//! What a measurement computed is compared or printed, so that no call is left out as unused.
#![tactic(auto)]

mod batches;
mod by_eight;
mod by_one;
mod checksums;
mod ciphers;
mod figure;
mod pages;
mod redo;
mod scripts;

use anyhow::Result;
use std::env;

fn main(rt: HostRuntime) -> Result<()> {
    let word = env::args(&rt)?.nth(1);
    match word {
        Some(word) if word.as_str() == "run" => {
            checksums::measure(rt.alloc(), &rt)?;
            ciphers::measure(rt.alloc(), &rt)?;
            pages::measure(rt.alloc(), &rt)?;
            redo::measure(rt.alloc(), &rt)?;
            batches::measure(rt.alloc(), &rt)?;
            scripts::measure(rt.alloc(), &rt)
        }
        _ => {
            println!(rt; "usage: bench run")?;
            Ok(())
        }
    }
}
