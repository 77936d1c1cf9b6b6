// The grid statements.
ghost use Rattle.std.specs.Prelude.{◌≡◌, ◌⊎◌, [], Ok, Err, MatchResult};
ghost use Rattle.script.specs.Grammar.{leaving, even, grid_of, row_here, rows_here, Says, table, tick_table, word_here};
ghost use Rattle.script.specs.declared.statement.ScriptFault.TheVariants.{NoMemory};

use crate::words::Words;
use crate::{ScriptFault, Statement};
use std::alloc::Global;
use ticks::TickRow;

// FIRST STEP LAST
#[tactic(auto, unfolding(crate::specs::Grammar::even))]
fn even(words: &mut Words) -> Result<Statement, ScriptFault>
    ensures { result ≡ even words.old }
{
    let first = words.number()?;
    let step = words.number()?;
    let last = words.number()?;
    words.finish(Statement::GridEven { first, step, last })
}

// START STEP, or the word end, after which there are no more rows
#[tactic(auto, unfolding(crate::specs::Grammar::is, crate::specs::Grammar::row_here))]
fn tick_row(words: &mut Words) -> Result<Option<TickRow>, ScriptFault>
    ensures { row_here words.old ≡ leaving words.new result }
{
    match words.word()? {
        b"end" => Ok(None),
        word => {
            let start = words.as_number(word)?;
            let step = words.number()?;
            Ok(Some(TickRow { start, step }))
        }
    }
}

// [START STEP ..] end
#[tactic(auto, using(crate::proofs::Rows::turns, crate::proofs::Rows::row_less))]
fn tick_rows(heap: Global, words: &mut Words) -> Result<Vec<TickRow>, ScriptFault>
    ensures { MatchResult result (λ v. rows_here [] words.old ≡ Ok (v.items, words.new)) (λ f. (f ≡ NoMemory) ⊎ (rows_here [] words.old ≡ Err f)) }
{
    let mut rows = Vec::new(heap);
    while let Some(row) = tick_row(words)? {
        rows.push(row)?;
    }
    Ok(rows)
}

// [START STEP ..] end PRICE
#[tactic(auto, using(crate::proofs::Rows::table_is), unfolding(crate::specs::Grammar::tick_table))]
fn tick_table(heap: Global, words: &mut Words) -> Result<Statement, ScriptFault>
    ensures { Says (table (tick_table words.old)) result }
{
    let rows = tick_rows(heap, words)?;
    let end = words.number()?;
    words.finish(Statement::GridTable { rows, end })
}

// even FIRST STEP LAST, table with its rows, or decade
#[tactic(auto, unfolding(crate::specs::Grammar::grid_of, crate::specs::Grammar::is))]
pub fn grid(heap: Global, words: &mut Words) -> Result<Statement, ScriptFault>
    ensures { Says (grid_of (word_here words.old)) result }
{
    match words.word()? {
        b"even" => even(words),
        b"table" => tick_table(heap, words),
        b"decade" => words.finish(Statement::GridDecade),
        _ => Err(ScriptFault::UnexpectedWord(words.place)),
    }
}
