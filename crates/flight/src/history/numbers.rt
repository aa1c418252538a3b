// What is told of the accepted packets.
ghost use Rattle.std.specs.Prelude.{◌≡◌, ◌≤◌, length};

use crate::history::History;

impl History {
    // How many packets were accepted.
    pub fn packets(&self) -> usize
        ensures value { result ≡ self.now.packets }
    {
        self.packets
    }

    // The cycle in which the packet behind issues.
    pub fn cycle(&self) -> u32
        ensures value { result ≡ self.now.cycle }
    {
        self.cycle
    }

    // How many entries are in flight.
    pub fn in_flight(&self) -> usize
        ensures value { result ≡ length self.now.flight }
        ensures few { result ≤ 40 }
    {
        self.flight.len()
    }
}
