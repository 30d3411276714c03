//! What a script is run over.
ghost use Rattle.std.specs.Prelude.{◌≡◌, ◌+◌, ◌^◌};

use crate::bare::Bare;
use crate::fault::Fault;
use crate::in_eras::begin;
use crate::runner::{Run, run_script};
use jsp_house::{Hall, RowsHouse};
use jsp_model::Config;
use jsp_types::{Items, NoMemory, Text};
use std::alloc::Global;
use std::marker::Brand;
use std::sync::ledger::{Blank, Ledger};

const PARTS: u64 = (1 << 31) + 1;

/// How many steps an era holds, of a history in eras.
const ERA: u64 = 4;

/// The spaces a and b.
fn names(alloc: Global) -> Result<Items<Text>, NoMemory> {
    let mut names = Items::new(alloc);
    for name in ["a", "b"] {
        names.push(Text::from_str(alloc, name)?)?;
    }
    Ok(names)
}

/// Runs the script over a house that keeps its history in eras.
fn run_in_eras<A: Ledger, O: Ledger>(
    alloc: Global,
    config: &Config,
    script: &[u8],
    asks: Blank,
    outs: Blank,
) -> Result<Run, Fault>
    requires asks { (asks.name ≡ A.name) × (asks.parts ≡ A.parts) × (A.parts ≡ 2 ^ 31 + 1) }
    requires outs { (outs.name ≡ O.name) × (outs.parts ≡ O.parts) × (O.parts ≡ 2 ^ 31 + 1) }
{
    let house = Hall::new(alloc, config, 0)?;
    let kept = begin::<A, O>(alloc, house, config, ERA, asks, outs)?;
    run_script(alloc, kept, script)
}

/// Runs the script over what the word names.
pub(crate) fn run_over(alloc: Global, word: &str, script: &[u8]) -> Result<Run, Fault> {
    let Some(config) = Config::new(names(alloc)?) else {
        return Err(Fault::NotBegun);
    };
    match word {
        "hall" => {
            let house = Hall::new(alloc, &config, 0)?;
            run_script(alloc, Bare::new(alloc, config, house), script)
        }
        "rows" => {
            let house = RowsHouse::new(alloc, &config)?;
            run_script(alloc, Bare::new(alloc, config, house), script)
        }
        "kept" => {
            run_in_eras::<Brand, Brand>(
                alloc,
                &config,
                script,
                Blank::new(PARTS),
                Blank::new(PARTS),
            )
        }
        _ => Err(Fault::NotBegun),
    }
}
