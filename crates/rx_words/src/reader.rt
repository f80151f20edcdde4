// The words of a command, read.
ghost use Rattle.std.specs.Prelude.{◌≡◌, ℕ, None, IfOk, IfSome, IsErrOf};
ghost use Rattle.rx_words.specs.Words.{Asked, asked, asked_any, alone as lone, BadWord, told_number};
ghost use Rattle.rx_words.specs.Commands.{IsAsked, IsProper, IsLiveCommand};
ghost use Rattle.rx_words.specs.declared.command.WordFault.TheVariants.{Bad};

use crate::command::{Command, LiveWords, WordFault};
use crate::settled::{read_gen, read_step, read_workers};
use rx_base::RxWord;
use std::alloc::Global;

/// Reads the words of a command that starts no thread. `Bad` comes exactly where they are none.
pub fn read_words(alloc: Global, words: &[RxWord]) -> Result<Command, WordFault>
    ensures ok { IfOk result (λ c. IsAsked c (asked words.now) × IsProper c) }
    ensures bad { (word : ℕ) → IsErrOf result (Bad word) → (k : ℕ) × (asked words.now ≡ BadWord k) × (word ≡ told_number k) }
{
    let Some((first, more)) = words.split_first() else {
        return Err(WordFault::Bad { word: 0 });
    };
    if first.bytes() == b"step".as_slice() {
        return read_step(alloc, more);
    }
    if first.bytes() == b"gen".as_slice() {
        return read_gen(alloc, more);
    }
    if first.bytes() == b"check".as_slice() {
        return alone(Command::Check, more);
    }
    if first.bytes() == b"verify".as_slice() {
        return alone(Command::Verify, more);
    }
    if first.bytes() == b"span".as_slice() {
        return alone(Command::Span, more);
    }
    Err(WordFault::Bad { word: 0 })
}

// A command without options, before these words.
fn alone(command: Command, more: &[RxWord]) -> Result<Command, WordFault>
    requires { IsProper command }
    ensures ok { (a : Asked) → IsAsked command a → IfOk result (λ c. IsAsked c (lone a more.now) × IsProper c) }
    ensures bad { (a : Asked) (word : ℕ) → IsErrOf result (Bad word) → (lone a more.now ≡ BadWord 1) × (word ≡ 1) }
{
    if more.is_empty() {
        Ok(command)
    } else {
        Err(WordFault::Bad { word: 1 })
    }
}

/// Reads the words of `live`; none where their first word is another one. `Bad` comes exactly where they begin with `live` and are
/// no command.
pub fn read_live(alloc: Global, words: &[RxWord]) -> Result<Option<LiveWords>, WordFault>
    ensures live { IfOk result (λ o. IfSome o (λ l. IsLiveCommand l (asked_any words.now))) }
    ensures other { IfOk result (λ o. o ≡ None → asked_any words.now ≡ asked words.now) }
    ensures bad { (word : ℕ) → IsErrOf result (Bad word) → (k : ℕ) × (asked_any words.now ≡ BadWord k) × (word ≡ told_number k) }
{
    let Some((first, more)) = words.split_first() else {
        return Ok(None);
    };
    if first.bytes() != b"live".as_slice() {
        return Ok(None);
    }
    Ok(Some(read_workers(alloc, more)?))
}
