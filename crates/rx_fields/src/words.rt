// How bytes are cut into lines, and a line into words.
ghost use Rattle.std.specs.Prelude.{◌≡◌, ◌≢◌, ◌+◌, ◌<◌, ◌≤◌, ◌^◌, ◌++◌, ◌∷◌, ◌==◌, not, length, take, option_map, Some, IfOk, IfSome, IfNone};
ghost use Rattle.std.specs.List.{prefix_len};
ghost use Rattle.std.specs.Str.{bytes_eq};
ghost use Rattle.rx_text.specs.Numbers.{natural_text};
ghost use Rattle.rx_fields.specs.Words.{Lacks, pieces, words_left, first_word};
ghost use Rattle.rx_fields.specs.Inside.FieldWords.{path_at};
ghost use Rattle.rx_fields.specs.Inside.Readers.{is_word_end};

use crate::numbers::front_number;
use memchr::memchr;
use rx_base::{NoMemory, Path};
use std::alloc::Global;
use std::marker::Model;

// How many bytes stand before the first `stop`.
fn run_len(bytes: &[u8], stop: u8) -> usize
    ensures run { result ≡ prefix_len (λ b. not (b == stop)) bytes.now }
    ensures within { result ≤ length bytes.now }
{
    bytes.iter().take_while(|b| **b != stop).count()
}

/// The first line of these bytes without its newline, and what stands after it. It is none where the bytes have no newline.
pub fn first_line(bytes: &[u8]) -> Option<(&[u8], &[u8])>
    ensures some { IfSome result (λ x. (bytes.now ≡ x.0.now ++ 10 ∷ x.1.now) × Lacks 10 x.0.now) }
    ensures none { IfNone result (Lacks 10 bytes.now) }
    ensures shorter { IfSome result (λ x. length x.1.now < length bytes.now) }
{
    let len = memchr(b'\n', bytes)?;
    Some((&bytes[..len], &bytes[len + 1..]))
}

// What stands before the first `stop`, and what stands after it.
pub(crate) fn cut(bytes: &[u8], stop: u8) -> Option<(&[u8], &[u8])>
    ensures some { IfSome result (λ x. (bytes.now ≡ x.0.now ++ stop ∷ x.1.now) × Lacks stop x.0.now) }
    ensures none { IfNone result (Lacks stop bytes.now) }
    ensures shorter { IfSome result (λ x. length x.1.now < length bytes.now) }
{
    let len = run_len(bytes, stop);
    if len == bytes.len() {
        return None;
    }
    Some((&bytes[..len], &bytes[len + 1..]))
}

/// The words of a line that are still to be read. It is seen as the list of them, each a list of bytes; where two blanks stand
/// together, the word between them is empty.
#[derive(Drop)]
pub struct Words<'a> {
    rest: &'a [u8],
}

impl<'a> Model for Words<'a> {
    ghost use Rattle.std.specs.Prelude.{List, ℕ};
    ghost use Rattle.rx_fields.specs.Words.{words_left};

    ghost Value = { List (List ℕ) };

    ghost view = { λ a. words_left a.rest.now };
}

impl<'a> Words<'a> {
    /// The next word, and the words after it. It is none where no word is left.
    pub fn first(&self) -> Option<(&'a [u8], Words<'a>)>
        ensures { option_map (λ x. (x.0.now, x.1)) result ≡ first_word self.now }
    {
        match cut(self.rest, b' ') {
            None => None,
            Some((_, tail)) => {
                let len = run_len(tail, b' ');
                Some((&tail[..len], Words { rest: &tail[len..] }))
            }
        }
    }

    /// Takes the next word. It is none where no word is left.
    pub fn next(&mut self) -> Option<&'a [u8]>
        ensures { option_map (λ w. (w.now, self.new)) result ≡ first_word self.old }
    {
        let (word, after) = self.first()?;
        *self = after;
        Some(word)
    }

    /// Takes the next word where it is a number of at most nine digits in its one spelling. None says nothing of the word, and takes
    /// none.
    #[inline(always)]
    pub fn short_number(&mut self) -> Option<u32>
        ensures some { IfSome result (λ n. self.old ≡ natural_text n ∷ self.new) }
        ensures low { IfSome result (λ n. n < 2 ^ 32) }
        ensures none { IfNone result (self.new ≡ self.old) }
    {
        let tail = behind(self.rest, b' ')?;
        let (n, rest) = front_number(tail)?;
        if !ends_word(rest) {
            return None;
        }
        self.rest = rest;
        Some(n)
    }

    /// Takes the next word where it is this letter and a number of at most nine digits in its one spelling. None says nothing of the
    /// word, and takes none. The condition is that the letter is no blank.
    #[inline(always)]
    pub fn lettered(&mut self, letter: u8) -> Option<u32>
        requires { letter ≢ 32 }
        ensures some { IfSome result (λ n. self.old ≡ (letter ∷ natural_text n) ∷ self.new) }
        ensures low { IfSome result (λ n. n < 2 ^ 32) }
        ensures none { IfNone result (self.new ≡ self.old) }
    {
        let tail = behind(behind(self.rest, b' ')?, letter)?;
        let (n, rest) = front_number(tail)?;
        if !ends_word(rest) {
            return None;
        }
        self.rest = rest;
        Some(n)
    }

    // Takes the next word where it is a path of at most 65 numbers, each of at most nine digits. None says nothing of the word, and
    // takes none.
    pub(crate) fn short_path(&mut self, alloc: Global) -> Result<Option<Path>, NoMemory>
        ensures some { IfOk result (λ o. IfSome o (λ path. path_at self.old ≡ Some (path, self.new))) }
        ensures none { IfOk result (λ o. IfNone o (self.new ≡ self.old)) }
    {
        let Some(tail) = behind(self.rest, b' ') else {
            return Ok(None);
        };
        // Most paths have few numbers.
        let mut few = [0; 8];
        match front_path(&mut few, tail) {
            Some((len, rest)) => {
                let path = Path::from_slice(alloc, &few[..len])?;
                self.rest = rest;
                Ok(Some(path))
            }
            None => self.long_path(alloc, tail),
        }
    }

    // The same of the word behind the blank.
    #[inline(never)]
    fn long_path(&mut self, alloc: Global, tail: &'a [u8]) -> Result<Option<Path>, NoMemory>
        requires { pieces 32 tail.now ≡ self.old }
        ensures some { IfOk result (λ o. IfSome o (λ path. path_at self.old ≡ Some (path, self.new))) }
        ensures none { IfOk result (λ o. IfNone o (self.new ≡ self.old)) }
    {
        let mut many = [0; 65];
        let Some((len, rest)) = front_path(&mut many, tail) else {
            return Ok(None);
        };
        let path = Path::from_slice(alloc, &many[..len])?;
        self.rest = rest;
        Ok(Some(path))
    }

    /// Whether no word is left.
    pub fn is_empty(&self) -> bool
        ensures { result ≡ (length self.now == 0) }
    {
        self.first().is_none()
    }
}

/// The first word of a line, and the others. Each line has a first word, which may be empty.
pub fn split_words(line: &[u8]) -> (&[u8], Words<'_>)
    ensures { result.0.now ∷ result.1 ≡ pieces 32 line.now }
{
    let len = run_len(line, b' ');
    (&line[..len], Words { rest: &line[len..] })
}

// What stands behind this byte in front.
fn behind(bytes: &[u8], first: u8) -> Option<&[u8]>
    ensures { IfSome result (λ tail. bytes.now ≡ first ∷ tail.now) }
{
    match bytes {
        [b, tail @ ..] => { if *b == first { Some(tail) } else { None } }
        [] => None,
    }
}

// How many numbers the path has that is the first word of these bytes, and what stands after it; the numbers are put in front of the
// list. None says nothing of the bytes; it comes also where there are more numbers than the list has, or one of more than nine digits.
#[inline(always)]
fn front_path<'a>(few: &mut [u32], bytes: &'a [u8]) -> Option<(usize, &'a [u8])>
    requires { (0 < length few.old) × (length few.old ≤ 65) }
    ensures size { length few.new ≡ length few.old }
    ensures within { IfSome result (λ x. x.0 ≤ length few.new) }
    ensures some { IfSome result (λ x. path_at (pieces 32 bytes.now) ≡ Some (take x.0 few.new, words_left x.1.now)) }
{
    let mut len = 0;
    let mut rest = bytes;
    'numbers: while let Some((n, tail)) = front_number(rest) {
        few[len] = n;
        len += 1;
        if ends_word(tail) {
            return Some((len, tail));
        }
        if len == few.len() {
            return None;
        }
        rest = behind(tail, b'.')?;
    }
    None
}

// Whether a word that stands before these bytes ends there.
fn ends_word(rest: &[u8]) -> bool
    ensures { result ≡ is_word_end rest.now }
{
    match rest {
        [] => true,
        [b, ..] => *b == b' ',
    }
}

/// The words after the number n with which a line begins. None says nothing of the line; it comes also where n has more than nine
/// digits.
#[tactic(auto, using(crate::proofs::Fronts::line_first))]
#[inline(always)]
pub fn after_short(line: &[u8], n: usize) -> Option<Words<'_>>
    ensures { IfSome result (λ ws. pieces 32 line.now ≡ natural_text n ∷ ws) }
{
    let (m, rest) = front_number(line)?;
    if m as usize == n && ends_word(rest) {
        Some(Words { rest })
    } else {
        None
    }
}

/// Whether these are the same bytes. They are compared one by one, since words are short.
#[tactic(auto, using(crate::proofs::Same::other_length, crate::proofs::Same::none_left))]
pub fn is_same(word: &[u8], other: &[u8]) -> bool
    ensures same { result ≡ bytes_eq word.now other.now }
{
    if word.len() != other.len() {
        return false;
    }
    for i in 0..word.len() {
        if word[i] != other[i] {
            return false;
        }
    }
    true
}
