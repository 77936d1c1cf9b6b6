// Small sessions to check by hand.
ghost use Rattle.std.specs.Prelude.{◌≡◌};
ghost use Rattle.trading.specs.Examples.{SessionsAsTold, OpeningsAsTold, TenAsTold};

// The rules give every call of every example its answer and its report, every opening price of a new book its answer, and the
// openings and edges theirs.
pub fn sessions_as_told() -> u8
    ensures nought { result ≡ 0 }
    ensures rows { SessionsAsTold }
    ensures openings { OpeningsAsTold }
    ensures ten { TenAsTold }
{
    0
}
