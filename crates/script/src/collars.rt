// The collar statements.
ghost use Rattle.std.specs.Prelude.{◌≡◌};
ghost use Rattle.script.specs.Grammar.{leaving, plain_collar, around_static, collar};

use crate::words::Words;
use crate::{CollarWords, PlainCollar, ScriptFault, Statement};

// none, band LOW HIGH or last K, of which the first word is given
#[tactic(auto, unfolding(crate::specs::Grammar::plain_collar, crate::specs::Grammar::is))]
fn plain_collar(words: &mut Words, word: &[u8]) -> Result<PlainCollar, ScriptFault>
    ensures { plain_collar word.now words.old ≡ leaving words.new result }
{
    match word {
        b"none" => Ok(PlainCollar::Unlimited),
        b"band" => {
            let low = words.number()?;
            let high = words.number()?;
            Ok(PlainCollar::FixedBand { low, high })
        }
        b"last" => {
            let k = words.number()?;
            Ok(PlainCollar::AroundLast { k })
        }
        _ => Err(ScriptFault::UnexpectedWord(words.place)),
    }
}

// K over another collar
#[tactic(auto, unfolding(crate::specs::Grammar::around_static, crate::specs::Grammar::is))]
fn around_static(words: &mut Words) -> Result<Statement, ScriptFault>
    ensures { result ≡ around_static words.old }
{
    let k = words.number()?;
    let b"over" = words.word()? else {
        return Err(ScriptFault::UnexpectedWord(words.place));
    };
    let word = words.word()?;
    let over = plain_collar(words, word)?;
    words.finish(Statement::Collar(CollarWords::AroundStatic { k, over }))
}

// none, band LOW HIGH, last K or static K over another
#[tactic(auto, unfolding(crate::specs::Grammar::collar, crate::specs::Grammar::is))]
pub fn collar(words: &mut Words) -> Result<Statement, ScriptFault>
    ensures { result ≡ collar words.old }
{
    match words.word()? {
        b"static" => around_static(words),
        word => {
            let plain = plain_collar(words, word)?;
            words.finish(Statement::Collar(CollarWords::Plain(plain)))
        }
    }
}
