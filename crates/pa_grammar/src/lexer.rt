// The tokens of a text.
ghost use Rattle.std.specs.Prelude.{◌≡◌, ◌≤◌, ◌<◌, ◌+◌, [], ◌∷◌, ℕ, length, true, IfOk, OnOk, slice_index, drop};
ghost use Rattle.std.specs.List.{prefix_len, AllPass};
ghost use Rattle.std.specs.Char.{is_ascii_digit};
ghost use Rattle.pa_names.specs.Names.{continues_name};
ghost use Rattle.pa_grammar.specs.Lexer as spec;
ghost use Rattle.pa_grammar.specs.Lexemes.{seen_lexeme};

use crate::numbers::{number_len, numeral_at};
use crate::token::{Fixed, Placed, Relation, Sign, Token};
use pa_names::{Name, NameFault, Names};
use std::alloc::{AllocError, Global};

/// How many bytes a term's text has at most.
pub const MOST_TEXT: usize = 4096;

pub(crate) fn word_len(bytes: &[u8]) -> usize
    ensures value { result ≡ spec.word_len bytes.now }
    ensures bound { result ≤ length bytes.now }
{
    bytes
        .iter()
        .take_while(|byte| byte.is_ascii_alphanumeric() || **byte == b'_')
        .count()
}

// Whether `=` stands in front.
fn follows_equal(bytes: &[u8]) -> bool
    ensures { result ≡ spec.follows_equal bytes.now }
{
    matches!(bytes, [b'=', ..])
}

/// A token and how many bytes it has.
#[derive(Clone, Copy, Debug, PartialEq, Eq)]
pub struct Lexeme {
    pub token: Token,
    pub len: usize,
}

fn of_len(token: Token, len: usize) -> Lexeme
    ensures { seen_lexeme result ≡ spec.lexeme token len }
{
    Lexeme { token, len }
}

// The token that begins with a byte that is no digit, letter or blank.
fn sign_at(first: u8, rest: &[u8]) -> Lexeme
    ensures value { seen_lexeme result ≡ spec.sign_at first rest.now }
    ensures bound { result.len ≤ 1 + length rest.now }
{
    match first {
        b'+' => of_len(Token::Signed(Sign::Plus), 1),
        b'-' => of_len(Token::Signed(Sign::Minus), 1),
        b'*' => of_len(Token::Star, 1),
        b'/' => of_len(Token::Slash, 1),
        b'(' => of_len(Token::Open, 1),
        b')' => of_len(Token::Close, 1),
        b'|' => of_len(Token::Bar, 1),
        b'=' => of_len(
            Token::Relates(Relation::Equal),
            if follows_equal(rest) { 2 } else { 1 },
        ),
        b'<' if follows_equal(rest) => of_len(Token::Relates(Relation::AtMost), 2),
        b'>' if follows_equal(rest) => of_len(Token::Relates(Relation::AtLeast), 2),
        _ => of_len(Token::Bad, 1),
    }
}

/// Names that stand for numbers: a numerator and a denominator for each.
#[derive(Drop)]
pub struct Constants {
    pub names: Names,
    pub values: Vec<(i128, i128)>,
}

impl Constants {
    /// No constants.
    pub fn none(alloc: Global) -> Constants
        ensures names { result.names ≡ [] }
        ensures values { result.values.items ≡ [] }
    {
        Constants {
            names: Names::new(alloc),
            values: Vec::new(alloc),
        }
    }

    /// The value of the constant of this name. `None` where there is none.
    fn value(&self, name: &Name) -> Option<Fixed>
        ensures { result ≡ spec.constant_value self.now.names self.now.values.items name.now }
    {
        let place = self.names.place(name)?;
        let (num, den) = *self.values.get(place as usize)?;
        Some(Fixed { num, den })
    }
}

// The token of a word.
fn word_token(
    alloc: Global,
    names: &Names,
    constants: &Constants,
    word: &[u8],
) -> Result<Token, AllocError>
    ensures { IfOk result (λ token. token ≡ spec.word_token (spec.scope names.now constants.now.names constants.now.values.items) word.now) }
{
    match Name::read(alloc, word) {
        Ok(name) => Ok(match constants.value(&name) {
            Some(value) => Token::Const(value),
            None => Token::Named(names.place(&name)),
        }),
        Err(NameFault::Memory) => Err(AllocError),
        Err(_) => Ok(Token::Bad),
    }
}

// The token in front of a text that begins with no blank.
fn lexeme_at(
    alloc: Global,
    names: &Names,
    constants: &Constants,
    bytes: &[u8],
) -> Result<Lexeme, AllocError>
    requires some { 0 < length bytes.now }
    requires short { length bytes.now ≤ spec.most_text }
    ensures value { IfOk result (λ l. seen_lexeme l ≡ spec.lexeme_at (spec.scope names.now constants.now.names constants.now.values.items) (slice_index bytes.now 0) (drop 1 bytes.now)) }
    ensures bound { IfOk result (λ l. l.len ≤ length bytes.now) }
{
    let first = bytes[0];
    if first.is_ascii_digit() {
        return Ok(of_len(Token::Number(numeral_at(bytes)), number_len(bytes)));
    }
    if first.is_ascii_alphabetic() || first == b'_' {
        let len = word_len(bytes);
        let token = word_token(alloc, names, constants, &bytes[..len])?;
        return Ok(of_len(token, len));
    }
    Ok(sign_at(first, &bytes[1..]))
}

fn is_blank(byte: u8) -> bool
    ensures { result ≡ spec.is_blank byte }
{
    byte == b' ' || byte == b'\t'
}

// What follows a byte's place.
pub(crate) fn text_from(text: &[u8], at: usize) -> &[u8]
    requires { at ≤ length text.now }
    ensures { result.now ≡ drop at text.now }
{
    &text[at..]
}

fn is_bad(token: Token) -> bool
    ensures { result ≡ spec.is_bad token }
{
    matches!(token, Token::Bad)
}

/// The tokens of a text over the names and constants, up to and including the first bad byte.
pub fn tokens(
    alloc: Global,
    text: &[u8],
    names: &Names,
    constants: &Constants,
) -> Result<Vec<Placed>, AllocError>
    requires { length text.now ≤ spec.most_text }
    ensures { IfOk result (λ tokens. tokens.items ≡ spec.tokens_of_text (spec.scope names.now constants.now.names constants.now.values.items) text.now) }
{
    let mut tokens = Vec::new(alloc);
    let mut next = 0;
    for at in 0..text.len() {
        if at < next || is_blank(text[at]) {
            continue;
        }
        let lexeme = lexeme_at(alloc, names, constants, text_from(text, at))?;
        tokens.push(Placed {
            at: at as u32,
            token: lexeme.token,
        })?;
        if is_bad(lexeme.token) {
            return Ok(tokens);
        }
        next = at + lexeme.len;
    }
    Ok(tokens)
}
