// Reading the list. A word is 16 hexadecimal digits, and a space or a line's end behind them.
use crate::asked::Asked;
use crate::kinds::Kind;
use crate::stored::Stored;
use std::io::Read;
use text_numbers::bits_token;

// The most words that a request asks, and the most that an answer has.
pub(crate) const MOST: usize = 512;

// The bytes of a word.
const WIDTH: usize = 17;

// Reads the next word. None where the file ends or has something else.
pub(crate) fn read_word(list: &mut impl Read) -> Option<u64> {
    let mut text = [0; WIDTH];
    list.read_exact(&mut text).ok()?;
    match text.as_slice() {
        [digits @ .., b' ' | b'\n'] => bits_token(digits),
        _ => None,
    }
}

// Reads as many words as are to come into the first places, where there is room.
fn read_words<'a>(
    list: &mut impl Read,
    count: u64,
    places: &'a mut [u64; MOST],
) -> Option<&'a [u64]> {
    let words = places.get_mut(..count as usize)?;
    for word in words.iter_mut() {
        *word = read_word(list)?;
    }
    Some(words)
}

// A request: its kind, what it asks, and the stored answer.
#[derive(Clone, Copy)]
pub(crate) struct Request<'a> {
    pub kind: Kind,
    pub asked: Asked<'a>,
    pub stored: Stored<'a>,
}

// Reads the next request: its kind, how many words it asks, how many the stored answer has, and these words.
pub(crate) fn read_request<'a>(
    list: &mut impl Read,
    asked: &'a mut [u64; MOST],
    stored: &'a mut [u64; MOST],
) -> Option<Request<'a>> {
    let kind = Kind::try_from(read_word(list)?).ok()?;
    let n = read_word(list)?;
    let m = read_word(list)?;
    Some(Request {
        kind,
        asked: Asked(read_words(list, n, asked)?),
        stored: Stored(read_words(list, m, stored)?),
    })
}
