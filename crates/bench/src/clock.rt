//! The thread's processor time, in seconds.
use super::failure::Failure;
use std::time::{CpuClock, Duration};

/// The processor time so far, if the system gives it. `since` reports if it does not, so that what
/// is timed has one way fewer to end early.
pub fn now<R: CpuClock>(rt: &R) -> Option<Duration> {
    match rt.thread_cpu_time() {
        Ok(time) => Some(time),
        Err(_) => None,
    }
}

/// The seconds of processor time since a moment.
pub fn since<R: CpuClock>(rt: &R, start: Option<Duration>) -> Result<f64, Failure> {
    match (start, now(rt)) {
        (Some(start), Some(end)) => Ok(end.saturating_sub(start).as_secs_f64()),
        _ => Err(Failure::Clock),
    }
}
