ghost use Rattle.std.specs.Prelude.{◌≡◌, ◌<◌, ◌+◌, List, Option, Some, drop, vec_len};
ghost use Rattle.outside_world.specs.Clock.{TakesReading};

use serial_date::Moment;

/// A clock, by the readings that are left, where it tells them. It never fails.
pub trait Clock {
    ghost use Rattle.serial_date.specs.declared.moment.Moment.{Moment};

    ghost readings: { Self → Option (List Moment) };

    /// The moment now.
    fn read(&mut self) -> Moment
        ensures { TakesReading (readings self.old) (readings self.new) result };
}

/// A clock in memory, which repeats its last reading.
#[derive(Drop)]
pub struct ListClock {
    readings: Vec<Moment>,
    at: usize,
    ghost in_range: { at < vec_len readings },
}

impl ListClock {
    ghost use Rattle.outside_world.specs.Told.{clock_readings};

    /// A clock with these readings, of which there is at least one.
    pub fn new(readings: Vec<Moment>) -> ListClock
        requires { 0 < vec_len readings }
        ensures { clock_readings result ≡ readings.items }
    {
        ListClock { readings, at: 0 }
    }
}

impl Clock for ListClock {
    ghost readings = { λ c. Some (drop c.at c.readings.items) };

    fn read(&mut self) -> Moment {
        let now = self.readings[self.at];
        if self.at + 1 < self.readings.len() {
            self.at += 1;
        }
        now
    }
}
