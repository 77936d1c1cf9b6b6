// The words of a line.
use std::marker::Model;

// What is left of a line to read, and the place of the word read last.
#[derive(Drop)]
pub struct Words<'a> {
    pub rest: &'a [u8],
    pub place: usize,
}

// How many words were read, and the words that are left.
impl<'a> Model for Words<'a> {
    ghost use Rattle.std.specs.Prelude.{◌+◌, ◌^◌, ◌<◌, length};
    ghost use Rattle.script.specs.Words.{Left, words_of};

    ghost Value = { Left };

    ghost view = { λ w. record { read = w.place; words = words_of w.rest.now } };

    ghost invariant = { λ w. w.place + length w.rest.now < 2 ^ 63 };
}
