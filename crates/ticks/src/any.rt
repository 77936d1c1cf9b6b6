// One of the three grids, chosen while a program runs. An enum and no dyn: the kinds are few and known, and a grid is copied.
ghost use Rattle.ticks.specs.Any.{on_any};
ghost use Rattle.std.proofs.Common.{arith};
ghost use Rattle.std.proofs.lemmas.Bool.Decides.{nat_tests};
ghost use Rattle.ticks.specs.declared.any.AnyGrid.TheVariants.{Even, Table, Decade};
ghost use Rattle.ticks.specs.Ladder.{lawful_price};

use crate::TickTable;
use grid::{DecadeGrid, EvenGrid, PriceGrid};

#[derive(Clone, Copy)]
pub enum AnyGrid {
    Even(EvenGrid),
    Table(TickTable),
    Decade(DecadeGrid),
}

impl PriceGrid for AnyGrid {
    ghost lawful = { on_any };

    ghost priced = { elim [
      | Even g ↦ λ p on. (Prim.grind (arith, nat_tests), Prim.grind (arith, nat_tests))
      | Table t ↦ λ p on. lawful_price t p on
      | Decade g ↦ λ p on. (Prim.grind (arith, nat_tests), Prim.grind (arith, nat_tests))
    ] };

    fn above(&self, p: u32) -> Option<u32> {
        match self {
            AnyGrid::Even(g) => g.above(p),
            AnyGrid::Table(g) => g.above(p),
            AnyGrid::Decade(g) => g.above(p),
        }
    }

    fn below(&self, p: u32) -> Option<u32> {
        match self {
            AnyGrid::Even(g) => g.below(p),
            AnyGrid::Table(g) => g.below(p),
            AnyGrid::Decade(g) => g.below(p),
        }
    }
}
