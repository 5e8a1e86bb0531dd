//! Which calls of an object in memory are to fail.

ghost use Rattle.std.specs.Prelude.{◌≡◌, Some, None};

/// Which calls fail: those with these numbers, the first call of the object being 1, and all from a
/// stop on.
#[derive(Debug, Drop)]
pub struct Schedule {
    fails: Vec<u64>,
    calls: u64,
    disk_calls_left: Option<u64>,
}

impl Schedule {
    ghost use Rattle.xs_outside.specs.Schedule.{is_due, Counted, DiskCallCounted};

    pub fn new(fails: Vec<u64>) -> Schedule
        ensures { result ≡ record { fails = fails; calls = 0; disk_calls_left = None } }
    {
        Schedule {
            fails,
            calls: 0,
            disk_calls_left: None,
        }
    }

    /// From now on so many calls of the disk are made, and then no call of any kind.
    pub fn stop_after(&mut self, disk_calls: u64)
        ensures { self.new ≡ record self.old { disk_calls_left = Some disk_calls } }
    {
        self.disk_calls_left = Some(disk_calls);
    }

    /// Counts a call, and tells whether it is to fail. It goes through the whole list.
    pub fn next_fails(&mut self) -> bool
        ensures due { result ≡ is_due self.old }
        ensures counted { Counted self.old self.new }
    {
        self.calls = self.calls.saturating_add(1);
        self.disk_calls_left == Some(0) || self.fails.contains(&self.calls)
    }

    /// The same for a call of the disk.
    pub fn next_disk_call_fails(&mut self) -> bool
        ensures due { result ≡ is_due self.old }
        ensures counted { DiskCallCounted self.old self.new }
    {
        let fails = self.next_fails();
        if let Some(left) = self.disk_calls_left {
            self.disk_calls_left = Some(left.saturating_sub(1));
        }
        fails
    }
}
