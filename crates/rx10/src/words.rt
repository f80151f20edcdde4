// The words that the system gives.
use rx_base::{NoMemory, RxWord};
use std::env::FillError;
use std::rt::Env;

// The words that the program was given, its own name left out.
pub(crate) fn given<R: Env + AllocGlobal>(rt: &R) -> Result<Vec<RxWord>, NoMemory> {
    let mut words = Vec::new(rt.alloc());
    for i in 1..usize::MAX {
        match word_at(rt, i)? {
            Some(word) => words.push(word)?,
            None => break,
        }
    }
    Ok(words)
}

// The word of a number, whatever its bytes, or none where there are fewer words.
fn word_at<R: Env + AllocGlobal>(rt: &R, i: usize) -> Result<Option<RxWord>, NoMemory> {
    let mut room = 256;
    for _ in 0..usize::BITS {
        let mut buf = vec![in rt.alloc(); 0u8; room]?;
        match rt.arg(i, &mut buf) {
            Ok(len) => return Ok(Some(RxWord::from_bytes(rt.alloc(), &buf[..len])?)),
            Err(FillError::NotPresent) => return Ok(None),
            Err(FillError::TooLong) => room = room.saturating_mul(2),
        }
    }
    Err(NoMemory)
}
