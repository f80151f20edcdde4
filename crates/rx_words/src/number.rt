// A value of an option.
ghost use Rattle.std.specs.Prelude.{◌≡◌, ◌≤◌, ◌^◌, ◌-◌, IfSome};
ghost use Rattle.rx_words.specs.Words.{number_of, kill_of};

use itoa::Buffer;
use rx_base::Kill;
use rx_kills::read_kill;
use rx_text::scan_num;

// The number from `least` to `most` that a word spells.
pub(crate) fn number(word: &[u8], least: u32, most: u32) -> Option<u32>
    ensures number { result ≡ number_of least most word.now }
    ensures within { IfSome result (λ n. (least ≤ n) × (n ≤ most)) }
{
    let (value, end) = scan_num(word, 0)?;
    if end < word.len() || value < i64::from(least) || i64::from(most) < value {
        return None;
    }
    Some(value as u32)
}

// The number of 64 bits that a word spells. A word that `parse` reads may still not be the one spelling of its number.
pub(crate) fn seed(word: &[u8]) -> Option<u64>
    ensures { result ≡ number_of 0 (2 ^ 64 - 1) word.now }
{
    let Ok(text) = str::from_utf8(word) else {
        return None;
    };
    let Ok(n) = text.parse::<u64>() else {
        return None;
    };
    if Buffer::new().format(n) == text {
        Some(n)
    } else {
        None
    }
}

// The kill that a word spells.
pub(crate) fn kill(word: &[u8]) -> Option<Kill>
    ensures { result ≡ kill_of word.now }
{
    read_kill(word)
}
