// Reads a line.
ghost use Rattle.script.specs.Grammar.{Says, price_or_order, statement_as, statement_of};
ghost use Rattle.script.specs.Words.{words_of};

use crate::collars::collar;
use crate::grids::grid;
use crate::orders::{one_price, order};
use crate::words::Words;
use crate::{ScriptFault, Statement};
use rules::Side;
use std::alloc::Global;

// A price, an order or an opening, of which the first word is given.
#[tactic(auto, unfolding(crate::specs::Grammar::is, crate::specs::Grammar::price_or_order))]
fn price_or_order(words: &mut Words, word: &[u8]) -> Result<Statement, ScriptFault>
    ensures { Says (price_or_order word.now words.old) result }
{
    match word {
        b"static" => one_price(words, Statement::Static),
        b"last" => one_price(words, Statement::Last),
        b"buy" => order(words, Side::Buy),
        b"sell" => order(words, Side::Sell),
        b"open" => words.finish(Statement::Open),
        _ => Err(ScriptFault::UnknownWord(words.place)),
    }
}

// The statement that begins with a word.
#[tactic(auto, unfolding(crate::specs::Grammar::is, crate::specs::Grammar::statement_as))]
fn statement_from(heap: Global, words: &mut Words, word: &[u8]) -> Result<Statement, ScriptFault>
    ensures { Says (statement_as word.now words.old) result }
{
    match word {
        [b'#', ..] => Ok(Statement::Blank),
        b"grid" => grid(heap, words),
        b"collar" => collar(words),
        _ => price_or_order(words, word),
    }
}

// What a line says. Only a tick table takes memory.
pub fn read_statement(heap: Global, line: &[u8]) -> Result<Statement, ScriptFault>
    ensures { Says (statement_of (words_of line.now)) result }
{
    let mut words = Words::new(line);
    match words.next() {
        Some(word) => statement_from(heap, &mut words, word),
        None => Ok(Statement::Blank),
    }
}
