// A tick table: 1 to 32 rows, each with a start and a step of its own; the last row ends at the end price, and past it
// there is no price.
ghost use Rattle.std.specs.Prelude.{◌≡◌, ℕ, ◌-◌, ◌<◌, ◌≤◌, length, Some, None, MatchResult};
ghost use Rattle.std.specs.Result.{result_err};
ghost use Rattle.grid.specs.Neighbours.{Lawful};
ghost use Rattle.ticks.specs.Rows.{row_at, start_at, step_at, last_at, on_rows, Rising, Stepped};
ghost use Rattle.ticks.specs.Setup.{row_fault, table_fault};

mod lawful;

use crate::{TableFault, TickRow};
use grid::{EvenGrid, is_price};

// The rows stand in a fixed array with their number beside it, so that a table is copied freely and takes no heap.
#[derive(Clone, Copy)]
pub struct TickTable {
    rows: [TickRow; 32],
    count: usize,
    end: u32,
    ghost some: { 1 ≤ count },
    ghost few: { count ≤ 32 },
    ghost rising: { Rising rows count },
    ghost stepped: { Stepped rows count },
    ghost low: { 1 ≤ start_at rows 0 },
    ghost closed: { start_at rows (count - 1) ≤ end },
    ghost high: { end ≤ 99999999 },
}

// Whether each row is sound and starts above the one before it, and if not, why the first that fails does.
#[tactic(auto, using(crate::proofs::Accepted::row_faults))]
fn check_rows(rows: &[TickRow]) -> Result<(), TableFault>
    ensures { result_err result ≡ row_fault 0 0 rows.now }
{
    let mut before = 0;
    for (i, row) in rows.iter().enumerate() {
        if !is_price(row.start) {
            return Err(TableFault::StartNotPrice(i));
        }
        if row.step == 0 {
            return Err(TableFault::RowZeroStep(i));
        }
        if row.start <= before {
            return Err(TableFault::StartNotRising(i));
        }
        before = row.start;
    }
    Ok(())
}

// Whether the rows and the end price make a table, and if not, why.
fn validate(rows: &[TickRow], end: u32) -> Result<(), TableFault>
    ensures { result_err result ≡ table_fault rows.now end }
{
    let Some(last) = rows.last() else {
        return Err(TableFault::NoRows);
    };
    if rows.len() > 32 {
        return Err(TableFault::TooManyRows);
    }
    check_rows(rows)?;
    if !is_price(end) {
        return Err(TableFault::EndNotPrice);
    }
    if end < last.start {
        return Err(TableFault::EndBelowLastStart);
    }
    Ok(())
}

// The rows in a table of 32 places.
fn placed(rows: &[TickRow]) -> [TickRow; 32]
    requires { length rows.now ≤ 32 }
    ensures { (i : ℕ) → i < length rows.now → row_at result i ≡ row_at rows.now i }
{
    let mut table = [TickRow { start: 0, step: 0 }; 32];
    table[..rows.len()].copy_from_slice(rows);
    table
}

impl TickTable {
    // The table of these rows and this end price, past which nothing is lawful; or why they make none.
    pub fn new(rows: &[TickRow], end: u32) -> Result<TickTable, TableFault>
        ensures { MatchResult result
            (λ t. (table_fault rows.now end ≡ None)
            × ((p : ℕ) → on_rows t.rows t.count t.end p ≡ on_rows rows.now (length rows.now) end p)
            × ((p : ℕ) → Lawful (on_rows t.rows t.count t.end) p → p ≤ end))
            (λ f. table_fault rows.now end ≡ Some f) }
    {
        validate(rows, end)?;
        Ok(TickTable {
            rows: placed(rows),
            count: rows.len(),
            end,
        })
    }

    // The highest price that row i may have.
    fn row_end(&self, i: usize) -> u32
        requires { i < self.now.count }
        ensures { result ≡ last_at self.now.rows self.now.count self.now.end i }
    {
        if i + 1 < self.count {
            self.rows[i + 1].start - 1
        } else {
            self.end
        }
    }

    // The prices of row i, as an even grid.
    fn row(&self, i: usize) -> EvenGrid
        requires { i < self.now.count }
        ensures first { result.first ≡ start_at self.now.rows i }
        ensures step { result.step ≡ step_at self.now.rows i }
        ensures last { result.last ≡ last_at self.now.rows self.now.count self.now.end i }
    {
        let TickRow { start, step } = self.rows[i];
        let Ok(row) = EvenGrid::new(start, step, self.row_end(i)) else {
            // the table's shape rules this out
            unreachable!()
        };
        row
    }
}
