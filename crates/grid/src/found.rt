// The neighbours and faults that the rules work out are the right ones.
ghost use Rattle.std.specs.Prelude.{◌≡◌};
ghost use Rattle.grid.specs.Neighbours.{NeighboursFound};

use crate::PriceGrid;

// States, of any grid and every number: going up from the number price by price finds the next lawful price above it,
// going down the next one below it, and the two together its fault, or none where it is lawful. Nothing is computed.
pub fn neighbours_found<G: PriceGrid>(grid: &G) -> u8
    ensures nought { result ≡ 0 }
    ensures found { NeighboursFound (G.lawful grid.now) }
{
    0
}
