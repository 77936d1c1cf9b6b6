// A tick table as a price grid: the prices of its rows are lawful.
ghost use Rattle.ticks.specs.Rows.{on_rows};
ghost use Rattle.ticks.specs.Ladder.{lawful_price};

use crate::TickTable;
use grid::PriceGrid;

impl PriceGrid for TickTable {
    ghost lawful = { λ t. on_rows t.rows t.count t.end };

    ghost priced = { lawful_price };

    fn above(&self, p: u32) -> Option<u32> {
        (0..self.count).find_map(|i| self.row(i).above(p))
    }

    fn below(&self, p: u32) -> Option<u32> {
        (0..self.count).rev().find_map(|i| self.row(i).below(p))
    }
}
