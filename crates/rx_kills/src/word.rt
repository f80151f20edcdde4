// A kill is written as its place and its moment.
ghost use Rattle.std.specs.Prelude.{◌≡◌, ℤ, Some, FitsSigned, IfSome};
ghost use Rattle.std.specs.Int.{w64};
ghost use Rattle.rx_base.specs.declared.ids.Kill.{Kill};
ghost use Rattle.rx_kills.specs.Words.{IsKillWord, with_sign};

use rx_base::{Kill, PlaceId};
use rx_text::scan_num;

/// The kill whose text `PLACE@MOMENT` the word is: the place from 0 to 15 and the moment from 0 to 1,000,000, each without
/// leading zeros. None comes exactly for other bytes. No memory is taken.
pub fn read_kill(word: &[u8]) -> Option<Kill>
    ensures spelled { IfSome result (λ kill. IsKillWord word.now kill) }
    ensures exact { (kill : Kill) → IsKillWord word.now kill → result ≡ Some kill }
{
    let (place, moment) = numbers_of(word)?;
    if place < 0 || 15 < place || moment < 0 || 1_000_000 < moment {
        return None;
    }
    Some(Kill {
        place: PlaceId(place as u8),
        moment: moment as u32,
    })
}

// The two numbers on both sides of the sign `@`.
fn numbers_of(word: &[u8]) -> Option<(i64, i64)>
    ensures spelled { IfSome result (λ x. word.now ≡ with_sign x.0 x.1) }
    ensures exact { (m n : ℤ) → FitsSigned w64 m → FitsSigned w64 n → word.now ≡ with_sign m n → result ≡ Some (m, n) }
{
    let (first, at) = scan_num(word, 0)?;
    if at == word.len() || word[at] != b'@' {
        return None;
    }
    let (second, end) = scan_num(word, at + 1)?;
    if end == word.len() {
        Some((first, second))
    } else {
        None
    }
}
