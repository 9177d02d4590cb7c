//! Where the moments of ears come from.
use std::io::{self, ErrorKind};
use std::time::{Clock, Instant};

/// Where moments come from, in milliseconds.
#[derive(Drop)]
pub enum Moments {
    /// From the clock of the wall: since 1970.
    Wall,
    /// From a clock that nobody sets: since this instant.
    Steady(Instant),
}

impl Moments {
    /// Those since now.
    pub fn steady<C: Clock>(clock: &C) -> io::Result<Moments> {
        Ok(Moments::Steady(Instant::now(clock)?))
    }

    /// The moment that it is.
    pub fn now<C: Clock>(&self, clock: &C) -> io::Result<u64> {
        let since = match self {
            Moments::Wall => clock.since_1970()?,
            Moments::Steady(start) => start.elapsed(clock)?,
        };
        match u64::try_from(since.as_millis()) {
            Ok(now) => Ok(now),
            Err(_) => Err(io::Error::from(ErrorKind::InvalidData)),
        }
    }
}
