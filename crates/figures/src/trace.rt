//! The reader of traces.

use crate::text::filled;
use std::alloc::AllocError;
use std::io;
use std::time::CpuClock;
use trace_text::{TraceFault, read};

/// The lines that the text repeats: one of each kind.
const LINES: &str =
    "b 0 4294967295\nl 7\nc bc6ef35f\nq 7\ns 0\nc 00000000\nd\nf\nw 12\nr\nu 7\ne 7\na 3\nz\nn 255\n";

/// The lines of a trace, where it is one.
fn count_lines(rt: &HostRuntime, text: &str) -> Result<usize, AllocError> {
    let bytes = text.as_bytes();
    if bytes.len() >= 0xffff_ffff {
        return Ok(0);
    }
    match read(rt.alloc(), bytes, 1) {
        Ok(lines) => Ok(lines.as_slice().len()),
        Err(TraceFault::Line(_)) => Ok(0),
        Err(TraceFault::OutOfMemory) => Err(AllocError),
    }
}

/// Reads traces of 16, 32 and 64 MiB, each so often; a short one once where no number is given.
pub fn trace(rt: &HostRuntime, count: Option<u32>) -> io::Result<()> {
    let Some(times) = count else {
        let text = filled(rt.alloc(), "sym-trace 1\n", LINES, None, 4_096)?;
        let lines = count_lines(rt, text.as_str())?;
        return println!(rt; "trace: {} bytes, {lines} lines", text.len());
    };
    for len in [16_777_216usize, 33_554_432, 67_108_864] {
        let text = filled(rt.alloc(), "sym-trace 1\n", LINES, None, len)?;
        let start = rt.thread_cpu_time()?;
        let mut lines = 0usize;
        for _ in 0..times {
            lines = count_lines(rt, text.as_str())?;
        }
        let time = rt.thread_cpu_time()?.saturating_sub(start).as_millis();
        println!(rt;
            "trace: {} bytes, {lines} lines, read {times} times in {time} ms of processor time",
            text.len()
        )?;
    }
    Ok(())
}
