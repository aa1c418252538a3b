// How a refusal is printed.
ghost use Rattle.std.specs.Prelude.{Some};
ghost use Rattle.constraints.specs.Texts.{fault_text};

use crate::fault::Fault;
use std::fmt;

impl fmt::Display for Fault {
    ghost output = { λ fault. Some (fault_text fault) };

    fn fmt<W: fmt::Write>(&self, f: &mut fmt::Formatter<W>) -> fmt::Result {
        write!(
            f,
            "refused {} packet {} slot {} with packet {} slot {}",
            self.refusal.number(),
            self.later.packet,
            self.later.slot,
            self.earlier.packet,
            self.earlier.slot,
        )
    }
}
