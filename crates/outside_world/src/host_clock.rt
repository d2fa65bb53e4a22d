ghost use Rattle.std.specs.Prelude.{None};

use crate::Clock;
use jiff::Timestamp;
use jiff::tz::Offset;
use serial_date::{Moment, moment_of};
use std::time::Clock as SystemClock;

/// The clock of the host, in UTC. It tells nothing of its readings. Where it can't be read, or stands outside 1900 to
/// 2099, the moment has no day.
#[derive(Drop)]
pub struct HostClock<C: SystemClock> {
    clock: C,
    // The second that was read last, since 1970, and its moment: readings of the same second need no calendar.
    second: u64,
    moment: Moment,
}

// The moment of a second since 1970.
fn moment_at(second: u64) -> Moment {
    let Ok(second) = i64::try_from(second) else {
        return Moment::unknown();
    };
    match Timestamp::from_second(second) {
        Ok(now) => moment_of(Offset::UTC.to_datetime(now)),
        Err(_) => Moment::unknown(),
    }
}

impl<C: SystemClock> HostClock<C> {
    /// A clock over the system's.
    pub fn new(clock: C) -> HostClock<C> {
        HostClock {
            clock,
            second: u64::MAX,
            moment: Moment::unknown(),
        }
    }
}

impl<C: SystemClock> Clock for HostClock<C> {
    ghost readings = { λ c. None };

    fn read(&mut self) -> Moment {
        let Ok(time) = self.clock.since_1970() else {
            return Moment::unknown();
        };
        let second = time.as_secs();
        if second != self.second {
            self.second = second;
            self.moment = moment_at(second);
        }
        self.moment
    }
}
