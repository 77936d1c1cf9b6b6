// Orders, and the statements that hold one price.
ghost use Rattle.std.specs.Prelude.{◌≡◌, ℕ, ◌^◌, ◌<◌};
ghost use Rattle.script.specs.Grammar.{leaving, order_price, order, one_price};
ghost use Rattle.script.specs.declared.statement.Statement.{Statement};

use crate::words::Words;
use crate::{OrderPrice, ScriptFault, Statement};
use rules::Side;

// at LIMIT, or market
#[tactic(auto, unfolding(crate::specs::Grammar::order_price, crate::specs::Grammar::is))]
fn order_price(words: &mut Words) -> Result<OrderPrice, ScriptFault>
    ensures { order_price words.old ≡ leaving words.new result }
{
    match words.word()? {
        b"at" => {
            let limit = words.number()?;
            Ok(OrderPrice::Limit(limit))
        }
        b"market" => Ok(OrderPrice::Market),
        _ => Err(ScriptFault::UnexpectedWord(words.place)),
    }
}

// QUANTITY at LIMIT, or QUANTITY market
#[tactic(auto, unfolding(crate::specs::Grammar::order))]
pub fn order(words: &mut Words, side: Side) -> Result<Statement, ScriptFault>
    ensures { result ≡ order side words.old }
{
    let quantity = words.number()?;
    let price = order_price(words)?;
    words.finish(Statement::Order {
        side,
        quantity,
        price,
    })
}

// PRICE, of which the statement is made
#[tactic(auto, unfolding(crate::specs::Grammar::one_price))]
pub fn one_price<F: FnOnce(u32) -> Statement>(
    words: &mut Words,
    says: F,
) -> Result<Statement, ScriptFault>
    requires { F.IsAlwaysCallable says }
    ensures { (f : ℕ → Statement) → ((p : ℕ) (s : Statement) → p < 2 ^ 32 → F.post says p s → s ≡ f p) → result ≡ one_price f words.old }
{
    let price = words.number()?;
    words.finish(says(price))
}
