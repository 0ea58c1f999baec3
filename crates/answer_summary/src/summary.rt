//! How many answers begin with each word.

ghost use Rattle.std.specs.Prelude.{◌≡◌, ◌<◌, ◌≤◌, ◌+◌, ◌-◌, ◌^◌, List, ℕ, [], ◌∷◌, ◌++◌, length, decimal, IfOk, OnOk, OnErr};
ghost use Rattle.std.specs.List.{prefix_len};
ghost use Rattle.std.specs.Ordering.{nat_cmp, is_lt};
ghost use Rattle.std.specs.Cmp.Lexicographic.{slice_cmp};
ghost use Rattle.answer_summary.specs.Summary.{word_of, rows_of, counted, summary_text, row_line, is_in_word, stands_before};

use itoa::Buffer;
use listing::Text;
use std::alloc::{AllocError, Global};
use std::marker::Model;

// the byte that ends a word
const SPACE: u8 = b' ';

// the byte that ends a line
const LINE_FEED: u8 = b'\n';

/// A word, and how many answers begin with it.
#[derive(Drop)]
pub struct Row {
    /// The word.
    pub word: Text,
    /// How many answers begin with it, at most 2^64 - 1.
    pub count: u64,
}

/// How many answers begin with each word. It is seen as the list of the words that came, in byte order, each with its
/// number.
#[derive(Drop)]
pub struct Summary {
    rows: Vec<Row>,
}

impl Model for Summary {
    ghost use Rattle.std.specs.Prelude.{List};
    ghost use Rattle.answer_summary.specs.declared.summary.Row.{Row};

    ghost Value = { List Row };

    ghost view = { λ s. s.rows.items };
}

impl Summary {
    /// No answers. It takes no memory.
    pub fn new(alloc: Global) -> Summary
        ensures { result ≡ [] }
    {
        Summary {
            rows: Vec::new(alloc),
        }
    }

    /// Counts one answer more, by the word that it begins with: what stands before its first space or line feed. An answer
    /// without a word is not counted. The count is exact for fewer than 2^64 - 1 answers.
    ///
    /// # Errors
    /// Want of memory; then nothing has changed.
    pub fn count(&mut self, alloc: Global, answer: &[u8]) -> Result<(), AllocError>
        ensures counted { OnOk result ((answers : List (List ℕ)) → length answers < 2 ^ 64 - 1
            → self.old ≡ rows_of answers → self.new ≡ rows_of (answers ++ answer.now ∷ [])) }
        ensures refused { OnErr result (self.new ≡ self.old) }
    {
        let word = word_of(answer);
        if word.is_empty() {
            return Ok(());
        }
        count_word(alloc, &mut self.rows, word)
    }

    /// The lines of the summary: each word with its number, in byte order.
    ///
    /// # Errors
    /// Want of memory.
    pub fn text(&self, alloc: Global) -> Result<Text, AllocError>
        ensures { IfOk result (λ text. text ≡ summary_text self.now) }
    {
        let mut out = Vec::new(alloc);
        'rows: for row in &self.rows {
            put_row(&mut out, row)?;
        }
        Ok(Text::from_vec(out))
    }
}

// what stands before the first space or line feed
fn word_of(answer: &[u8]) -> &[u8]
    ensures { result.now ≡ word_of answer.now }
{
    &answer[..word_length(answer)]
}

// how many bytes stand before the first space or line feed
fn word_length(answer: &[u8]) -> usize
    ensures length { result ≡ prefix_len is_in_word answer.now }
    ensures within { result ≤ length answer.now }
{
    answer
        .iter()
        .take_while(|byte| **byte != SPACE && **byte != LINE_FEED)
        .count()
}

// counts one answer more that begins with this word
fn count_word(alloc: Global, rows: &mut Vec<Row>, word: &[u8]) -> Result<(), AllocError>
    ensures counted { OnOk result (rows.new.items ≡ counted word.now rows.old.items) }
    ensures refused { OnErr result (rows.new.items ≡ rows.old.items) }
{
    let place = place_of(rows, word);
    if place < rows.len() && rows[place].word.is(word) {
        let row = &mut rows[place];
        row.count = row.count.saturating_add(1);
        return Ok(());
    }
    let word = Text::of(alloc, word)?;
    rows.insert(place, Row { word, count: 1 })?;
    Ok(())
}

// how many rows stand before this word
fn place_of(rows: &[Row], word: &[u8]) -> usize
    ensures place { result ≡ prefix_len (stands_before word.now) rows.now }
    ensures within { result ≤ length rows.now }
{
    rows.iter()
        .take_while(|row| stands_before(row, word))
        .count()
}

// whether the row has a word before this one
fn stands_before(row: &Row, word: &[u8]) -> bool
    ensures { result ≡ stands_before word.now row.now }
{
    is_before(row.word.bytes(), word)
}

// whether the word comes before the other in byte order, which its first byte says most often
fn is_before(word: &[u8], other: &[u8]) -> bool
    ensures { result ≡ is_lt (slice_cmp nat_cmp word.now other.now) }
{
    match (word, other) {
        ([first, ..], [other_first, ..]) if *first != *other_first => *first < *other_first,
        _ => word.cmp(other).is_lt(),
    }
}

// adds the line of a row
fn put_row(out: &mut Vec<u8>, row: &Row) -> Result<(), AllocError>
    ensures { OnOk result (out.new.items ≡ out.old.items ++ row_line row.now) }
{
    out.extend_from_slice(row.word.bytes())?;
    out.extend_from_slice(b" ")?;
    let mut digits = Buffer::new();
    out.extend_from_slice(digits.format(row.count).as_bytes())?;
    out.extend_from_slice(b"\n")
}
