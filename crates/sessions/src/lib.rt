// What holds of every trading session, of any length, for every price grid and every collar.

#![tactic(auto)]

ghost use Rattle.std.specs.Prelude.{◌≡◌};
ghost use Rattle.sessions.specs.Laws.{EverySession};
ghost use Rattle.sessions.specs.Orderly.{ChecksInOrder, OneAnswer, SomeAnswer};

// In every session, after every call: the laws of a call; and the tables are well-formed.
pub fn sessions_keep_laws() -> u8
    ensures nought { result ≡ 0 }
    ensures laws { EverySession }
{
    0
}

// The checks of each call come in the fixed order, and each call has one answer, neither none nor two.
pub fn rules_are_definite() -> u8
    ensures nought { result ≡ 0 }
    ensures order { ChecksInOrder }
    ensures one { OneAnswer }
    ensures some { SomeAnswer }
{
    0
}
