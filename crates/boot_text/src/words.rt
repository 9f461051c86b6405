// The lines of a text, and the words of a line.
ghost use Rattle.std.specs.Prelude.{◌≡◌, ◌<◌, IfOk, length, map};
ghost use Rattle.std.specs.Io.BufRead.{strip_last};
ghost use Rattle.boot_text.specs.Words.{is, lines_of, words_of, word};

use std::alloc::{AllocError, Global};
use std::marker::Model;
use vio_num::NoMemory;

/// The lines of the text: a line feed ends each, and the last may lack it.
pub fn lines(alloc: Global, text: &[u8]) -> Result<Vec<&[u8]>, AllocError>
    ensures { IfOk result (λ lines. map (λ line. line.now) lines.items ≡ lines_of text.now) }
{
    without_line_feed(text)
        .split(|b| *b == b'\n')
        .collect(alloc)
}

// Leaves out the line feed at the text's end.
fn without_line_feed(text: &[u8]) -> &[u8]
    ensures { result.now ≡ strip_last 10 text.now }
{
    match text {
        [front @ .., b'\n'] => front,
        _ => text,
    }
}

/// The words of a line. Contracts see the list of their bytes.
#[derive(Drop)]
pub struct Words<'a> {
    words: Vec<&'a [u8]>,
}

impl<'a> Model for Words<'a> {
    ghost use Rattle.std.specs.Prelude.{List, ℕ, map};

    ghost Value = { List (List ℕ) };

    ghost view = { λ inside. map (λ word. word.now) inside.words.items };
}

impl<'a> Words<'a> {
    /// The words of the line, which one or more spaces part.
    pub fn of(alloc: Global, line: &'a [u8]) -> Result<Words<'a>, NoMemory>
        ensures { IfOk result (λ words. words ≡ words_of line.now) }
    {
        let words = split_words(alloc, line)?;
        Ok(Words { words })
    }

    /// The number of words.
    pub fn len(&self) -> usize
        ensures { result ≡ length self.now }
    {
        self.words.len()
    }

    /// A word, counted from 0.
    pub fn at(&self, index: usize) -> &[u8]
        requires { index < length self.now }
        ensures { result.now ≡ word self.now index }
    {
        self.words[index]
    }
}

// Splits the line at its spaces.
fn split_words(alloc: Global, line: &[u8]) -> Result<Vec<&[u8]>, AllocError>
    ensures { IfOk result (λ words. map (λ word. word.now) words.items ≡ words_of line.now) }
{
    line.split(|b| *b == b' ')
        .filter(|word| !word.is_empty())
        .collect(alloc)
}

/// Whether the word is this text.
#[tactic(auto, unfolding(crate::specs::Words::is))]
pub fn is_text(word: &[u8], text: &[u8]) -> bool
    ensures { result ≡ is word.now text.now }
{
    word == text
}
