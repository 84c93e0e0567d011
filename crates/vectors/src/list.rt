// Reading the list. Its first line is the number of vectors, and each other line is a vector: the function's number, the
// input's bits and the answer's. Each of these is 16 hexadecimal digits.
use exports::Function;
use std::io::Read;
use text_numbers::bits_token;

// The bytes of 16 digits and the one behind them.
const WIDTH: usize = 17;

// A function, and the bits of an input and of the answer.
#[derive(Clone, Copy)]
pub(crate) struct Vector {
    pub function: Function,
    pub input: u64,
    pub answer: u64,
}

// Reads 16 digits and the byte behind them, which is to be the one given.
pub(crate) fn read_bits(list: &mut impl Read, behind: u8) -> Option<u64> {
    let mut text = [0; WIDTH];
    list.read_exact(&mut text).ok()?;
    let digits = text.strip_suffix(&[behind])?;
    bits_token(digits)
}

// Reads the next vector, if the next line is one.
pub(crate) fn read_vector(list: &mut impl Read) -> Option<Vector> {
    let number = read_bits(list, b' ')?;
    let input = read_bits(list, b' ')?;
    let answer = read_bits(list, b'\n')?;
    Some(Vector {
        function: Function::try_from(number).ok()?,
        input,
        answer,
    })
}
