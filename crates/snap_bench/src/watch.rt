//! What calls took, and lines of figures.
use crate::fault::Fault;
use std::io::Print;
use std::rt::Files;
use std::time::{Clock, CpuClock, Duration, Instant};

/// The time from its making on, by the wall and of all threads together.
#[derive(Drop)]
pub struct Watch {
    wall: Instant,
    processor: Duration,
}

impl Watch {
    pub fn start<R: Clock + CpuClock>(rt: &R) -> Result<Watch, Fault> {
        Ok(Watch {
            wall: Instant::now(rt)?,
            processor: rt.process_cpu_time()?,
        })
    }

    /// Whether so many milliseconds have passed.
    pub fn is_past<R: Clock>(&self, rt: &R, millis: u32) -> Result<bool, Fault> {
        Ok(self.wall.elapsed(rt)?.as_millis() >= millis as u128)
    }

    /// Prints what was done and in which cell, how many calls that were, and the nanoseconds that passed and that
    /// processors worked.
    pub fn tell<R: Clock + CpuClock + Print>(
        &self,
        rt: &R,
        what: &str,
        cell: &str,
        calls: u64,
    ) -> Result<(), Fault> {
        let passed = self.wall.elapsed(rt)?.as_nanos();
        let worked = self.worked(rt)?;
        println!(rt; "SnapTable {what}{cell} {calls} {passed} {worked}")?;
        Ok(())
    }

    // The nanoseconds that processors worked.
    fn worked<R: CpuClock>(&self, rt: &R) -> Result<u128, Fault> {
        let now = rt.process_cpu_time()?;
        Ok(now.saturating_sub(self.processor).as_nanos())
    }
}

/// Prints a line of figures.
pub fn tell_figures<R: Print>(rt: &R, figures: &[u64]) -> Result<(), Fault> {
    let mut mark = "";
    for figure in figures {
        print!(rt; "{mark}{figure}")?;
        mark = ", ";
    }
    println!(rt; "")?;
    Ok(())
}

/// The nanoseconds since then of each of so many calls.
pub fn nanos_each<R: Clock>(rt: &R, start: Instant, calls: u32) -> Result<u64, Fault> {
    let nanos = start.elapsed(rt)?.as_nanos() / calls.max(1) as u128;
    Ok(u64::try_from(nanos).unwrap_or(u64::MAX))
}

/// How many a second so many since then are.
pub fn per_second<R: Clock>(rt: &R, start: Instant, calls: u64) -> Result<u64, Fault> {
    let nanos = start.elapsed(rt)?.as_nanos();
    let rate = calls as u128 * 1_000_000_000 / nanos.max(1);
    Ok(u64::try_from(rate).unwrap_or(u64::MAX))
}

/// How many bytes of the process lie in memory.
pub fn resident_bytes<R: Files + AllocGlobal>(rt: &R) -> Result<u64, Fault> {
    let text = std::fs::read_to_string(rt, "/proc/self/statm")?;
    bytes_in(text.as_str())
}

// The second word counts pages.
fn bytes_in(line: &str) -> Result<u64, Fault> {
    let Some(pages) = line.split(' ').nth(1) else {
        return Err(Fault::Usage);
    };
    match pages.parse::<u64>() {
        Ok(pages) => Ok(pages.saturating_mul(4096)),
        Err(_) => Err(Fault::Usage),
    }
}
