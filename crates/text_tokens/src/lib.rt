// The tokens of a request line: its runs of bytes that are no spaces; and tokens of digits alone.
#![tactic(auto)]

ghost use Rattle.std.specs.Prelude.{◌≡◌, length};
ghost use Rattle.std.specs.Char.{is_ascii_digit, is_ascii_hexdigit};
ghost use Rattle.std.specs.Iterator.{YieldsFirstBy, at_most};
ghost use Rattle.std.specs.List.{list_all};
ghost use Rattle.text_tokens.specs.Tokens.{next_token, parts, tokens};

// The first token of a line and what follows it, or that the line has none.
pub fn next_token(line: &[u8]) -> Option<(&[u8], &[u8])>
    ensures { parts result ≡ next_token line.now }
{
    let start = line.iter().position(|b| *b != b' ')?;
    let token = &line[start..];
    let end = token.iter().position(|b| *b == b' ').unwrap_or(token.len());
    Some(token.split_at(end))
}

// The tokens of a line, one after the other.
#[derive(Clone, Copy)]
pub struct Tokens<'a> {
    pub rest: &'a [u8],
}

impl<'a> Tokens<'a> {
    pub fn new(line: &'a [u8]) -> Tokens<'a>
        ensures { result.rest.now ≡ line.now }
    {
        Tokens { rest: line }
    }
}

impl<'a> Iterator for Tokens<'a> {
    type Item = &'a [u8];

    ghost next_gives = { YieldsFirstBy (λ token. token.now) (λ s. tokens s.rest.now) };

    ghost remaining = { λ s. at_most (length s.rest.now) };

    fn next(&mut self) -> Option<&'a [u8]> {
        let (token, rest) = next_token(self.rest)?;
        self.rest = rest;
        Some(token)
    }
}

// This and the next are one call each: with the test as a parameter nothing would be left of them but `all`.
pub fn all_digits(token: &[u8]) -> bool
    ensures { result ≡ list_all is_ascii_digit token.now }
{
    token.iter().all(u8::is_ascii_digit)
}

pub fn all_hex_digits(token: &[u8]) -> bool
    ensures { result ≡ list_all is_ascii_hexdigit token.now }
{
    token.iter().all(u8::is_ascii_hexdigit)
}
