// Goes through the words of a line.
ghost use Rattle.std.specs.Prelude.{◌≡◌, not, length, Ok, Err, MatchResult};
ghost use Rattle.std.specs.Iterator.{at_most};
ghost use Rattle.std.specs.List.{prefix_len};
ghost use Rattle.script.specs.Grammar.{leaving, word_here, number_at, number_here, end_here};
ghost use Rattle.script.specs.Numbers.{number_of};
ghost use Rattle.script.specs.Words.{is_gap, words_of, Next};

use crate::numbers::number_of;
use crate::words::Words;
use crate::{ScriptFault, Statement};

#[tactic(auto, unfolding(crate::specs::Words::is_gap))]
fn is_gap(b: u8) -> bool
    ensures { result ≡ is_gap b }
{
    matches!(b, b' ' | b'\t' | b'\r')
}

// How many bytes at the front part words.
fn gap_len(line: &[u8]) -> usize
    ensures { result ≡ prefix_len is_gap line.now }
{
    line.iter().take_while(|b| is_gap(**b)).count()
}

// How many bytes at the front part no words.
fn word_len(line: &[u8]) -> usize
    ensures { result ≡ prefix_len (λ b. not (is_gap b)) line.now }
{
    line.iter().take_while(|b| !is_gap(**b)).count()
}

// The words that are left, in order.
impl<'a> Iterator for Words<'a> {
    type Item = &'a [u8];

    ghost next_gives = { Next };

    ghost remaining = { λ l. at_most (length l.words) };

    #[tactic(auto, using(crate::proofs::Cuts::cutting))]
    fn next(&mut self) -> Option<&'a [u8]> {
        let line = self.rest;
        let (_, trimmed) = line.split_at(gap_len(line));
        if trimmed.is_empty() {
            return None;
        }
        let (word, rest) = trimmed.split_at(word_len(trimmed));
        self.rest = rest;
        self.place += 1;
        Some(word)
    }
}

impl<'a> Words<'a> {
    // The words of a line, none of them read.
    pub fn new(line: &'a [u8]) -> Self
        ensures { result ≡ record { read = 0; words = words_of line.now } }
    {
        Words {
            rest: line,
            place: 0,
        }
    }

    // The next word, which has to be there.
    #[tactic(auto, unfolding(crate::specs::Grammar::word_here))]
    pub fn word(&mut self) -> Result<&'a [u8], ScriptFault>
        ensures { MatchResult result (λ w. word_here self.old ≡ Ok (w.now, self.new)) (λ f. word_here self.old ≡ Err f) }
    {
        self.next().ok_or(ScriptFault::MissingWord(self.place + 1))
    }

    // The word read last, which has to be a number.
    pub fn as_number(&self, word: &[u8]) -> Result<u32, ScriptFault>
        ensures { result ≡ number_at self.now.read (number_of word.now) }
    {
        number_of(word).ok_or(ScriptFault::ExpectedNumber(self.place))
    }

    // The next word, which has to be a number.
    #[tactic(auto, unfolding(crate::specs::Grammar::number_here))]
    pub fn number(&mut self) -> Result<u32, ScriptFault>
        ensures { number_here self.old ≡ leaving self.new result }
    {
        let word = self.word()?;
        self.as_number(word)
    }

    // The statement, after which no words may be left.
    #[tactic(auto, unfolding(crate::specs::Grammar::end_here))]
    pub fn finish(&mut self, statement: Statement) -> Result<Statement, ScriptFault>
        ensures { result ≡ end_here statement self.old }
    {
        match self.next() {
            Some(_) => Err(ScriptFault::ExtraWord(self.place)),
            None => Ok(statement),
        }
    }
}
