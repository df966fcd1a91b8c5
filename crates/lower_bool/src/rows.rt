//! Words of literals in one buffer.
ghost use Rattle.std.specs.Prelude.{◌≡◌, ◌++◌, ◌∷◌, [], IfErr, OnOk};
ghost use Rattle.lower_bool.specs.Operations.{row_at};

use gate_net::{GateFault, Lit};
use std::alloc::Global;
use std::marker::Model;

/// Where a row stands in the buffer: from `start` on, before `end`.
#[derive(Clone, Copy)]
struct Span {
    start: usize,
    end: usize,
}

/// Rows of literals, all in one buffer, each found by its number. Contracts see the list of the rows.
#[derive(Drop)]
pub struct Rows {
    spans: Vec<Span>,
    literals: Vec<Lit>,
}

impl Model for Rows {
    ghost use Rattle.std.specs.Prelude.{length, List};
    ghost use Rattle.std.specs.List.{All};
    ghost use Rattle.gate_net.specs.declared.literal.Lit.{Lit};
    ghost use Rattle.lower_bool.specs.Rows.{IsWithin, rows_of};

    ghost Value = { List (List Lit) };

    ghost view = { λ r. rows_of r.literals.items r.spans.items };

    ghost invariant = { λ r. All (IsWithin (length r.literals.items)) r.spans.items };
}

impl Rows {
    /// No rows.
    pub fn new(alloc: Global) -> Rows
        ensures { result ≡ [] }
    {
        Rows {
            spans: Vec::new(alloc),
            literals: Vec::new(alloc),
        }
    }

    /// Puts the row `row` after the others.
    ///
    /// # Errors
    ///
    /// Memory ran out; the rows are as before.
    pub fn add(&mut self, row: &[Lit]) -> Result<(), GateFault>
        ensures added { OnOk result (self.new ≡ self.old ++ row.now ∷ []) }
        ensures memory { IfErr result (λ e. e ≡ GateFault.Memory) }
    {
        let start = self.literals.len();
        self.literals.extend_from_slice(row)?;
        let end = self.literals.len();
        self.spans.push(Span { start, end })?;
        Ok(())
    }

    /// The row of the number `row`; past the last one it is empty.
    pub fn get(&self, row: usize) -> &[Lit]
        ensures { result.now ≡ row_at self.now row }
    {
        match self.spans.get(row) {
            Some(span) => &self.literals[span.start..span.end],
            None => &[],
        }
    }
}
