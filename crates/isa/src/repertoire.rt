// A repertoire: a map from operation numbers to rows, by the one question that is asked of it.
ghost use Rattle.std.specs.Prelude.{◌≡◌, ℕ, Option};
ghost use Rattle.isa.specs.declared.row.Row.{Row};
ghost use Rattle.isa.specs.Rows.{Lawful};

use crate::row::Row;

pub trait Repertoire {
    // The rows, by operation number.
    ghost map: { Self → ℕ → Option Row };

    // The row of an operation, or none.
    fn row(&self, operation: u8) -> Option<Row>
        ensures { result ≡ map self.now operation };

    // Every row of the map keeps the rule.
    ghost lawful: { (x : Self) → Lawful (map x) };
}
