// Openings and edges to check by hand.
ghost use Rattle.std.specs.Prelude.{◌≡◌};
ghost use Rattle.rules.specs.Examples.{RowsRight};

// The rules give every row of the table of examples its answer.
pub fn examples_stand() -> u8
    ensures nought { result ≡ 0 }
    ensures rows { RowsRight }
{
    0
}
