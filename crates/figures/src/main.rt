//! How long single parts take: one word for each part, and how often.
#![tactic(auto)]

mod buddy;
mod desk;
mod rig;
mod steps;
mod text;
mod trace;

use std::{env, io};

fn main(rt: HostRuntime) -> io::Result<()> {
    let mut words = env::args(&rt)?;
    let _program = words.next();
    let part = words.next();
    let count = words.next().and_then(|word| word.parse::<u32>().ok());
    let word = match &part {
        Some(part) => part.as_str(),
        None => "",
    };
    match word {
        "buddy" => buddy::buddy(&rt, count),
        "desk" => desk::desk(&rt, count),
        "rig" => rig::rig(&rt, count),
        "header" => rig::rig_below_header(&rt, count),
        "steps" => steps::steps(&rt, count),
        "trace" => trace::trace(&rt, count),
        _ => println!(rt; "usage: figures buddy|desk|rig|header|steps|trace [N]"),
    }
}
