//! The program `symbench`: its words to the top call, over the real files and streams.
#![tactic(auto)]

use bench_pool::NoGate;
use scsi_words::Text;
use std::process::ExitCode;
use std::{env, io};
use sym_io::{RealShelf, RealSink};
use sym_top::{answer, refuse_words, words_of};

fn words(rt: &HostRuntime) -> io::Result<Vec<Text>> {
    Ok(words_of(rt.alloc(), env::args(rt)?)?)
}

fn main(rt: HostRuntime) -> ExitCode {
    let alloc = rt.alloc();
    let mut out = RealSink::new(rt.stdout());
    let mut err = RealSink::new(rt.stderr());
    let exit = match words(&rt) {
        Ok(words) => {
            let mut shelf = RealShelf::new(rt);
            let words = words.as_slice();
            answer(&rt, alloc, words, &mut shelf, &mut out, &mut err, &NoGate)
        }
        Err(error) => refuse_words(alloc, &error, &mut err),
    };
    exit.status()
}
