// The words and numbers of request and answer lines, as PROTOCOL.md has them: the tokens of a line (crate text_tokens), counts,
// floats and bytes in their written forms (crates text_decimals and text_numbers), and the bytes of an answer.
#![tactic(auto)]

mod print;

pub use print::Output;
pub use text_decimals::count_token;
pub use text_numbers::{float_token, is_pairs, put_pairs};
pub use text_tokens::{Tokens, next_token};
