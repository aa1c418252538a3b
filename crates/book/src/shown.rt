// How answers are printed.
ghost use Rattle.std.specs.Prelude.{Some};
ghost use Rattle.book.specs.Texts.{totals_text, answer_text};

use crate::calls::{Answer, Totals};
use std::fmt;

impl fmt::Display for Totals {
    ghost output = { λ totals. Some (totals_text totals) };

    fn fmt<W: fmt::Write>(&self, f: &mut fmt::Formatter<W>) -> fmt::Result {
        write!(
            f,
            "packets {} cycles {} stalls {}",
            self.packets, self.cycles, self.stalls,
        )
    }
}

impl fmt::Display for Answer {
    ghost output = { λ answer. Some (answer_text answer) };

    fn fmt<W: fmt::Write>(&self, f: &mut fmt::Formatter<W>) -> fmt::Result {
        match self {
            Answer::Open(records) => write!(f, "open {records}"),
            Answer::Accepted(accepted) => write!(
                f,
                "accepted issue {} length {} stall {}",
                accepted.issue,
                accepted.length,
                u8::from(accepted.stall),
            ),
            Answer::Totals(totals) => write!(f, "totals {totals}"),
            Answer::Closed(totals) => write!(f, "closed {totals}"),
        }
    }
}
