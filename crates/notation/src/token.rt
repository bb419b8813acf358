// Cuts a text into the tokens of the notation: names, numbers and marks.
ghost use Rattle.std.specs.Prelude.{◌≡◌, ◌||◌, false, Some, None, position};
ghost use Rattle.notation.specs.Pieces.{is_space_byte, is_mark_byte, run};
ghost use Rattle.notation.specs.Steps.{Answer};
ghost use Rattle.notation.specs.Tokens.{number_of, name_of, mark_of, token_of_piece, tokens};
ghost use Rattle.std.specs.Str.{bytes_eq};

use crate::stop::Stop;
use std::alloc::Global;
use words::MOST_VALUE;

#[derive(Clone, Copy, PartialEq)]
pub(crate) enum Token {
    Line,
    Sum,
    Greater,
    Root,
    Number(u32),
    Open,
    Close,
    Comma,
    EntriesOpen,
    EntriesClose,
}

// With the line feed, unlike the spaces of a script, whose lines are cut first.
fn is_space(b: u8) -> bool
    ensures { result ≡ is_space_byte b }
{
    matches!(b, b' ' | b'\t' | b'\r' | b'\n')
}

fn is_mark(b: u8) -> bool
    ensures { result ≡ is_mark_byte b }
{
    matches!(b, b'(' | b')' | b',' | b'[' | b']')
}

// Whether a byte is part of no run.
fn ends_run(b: u8) -> bool
    ensures { result ≡ (is_space_byte b || is_mark_byte b) }
{
    is_space(b) || is_mark(b)
}

// The number that a piece stands for, clipped to the largest.
fn number(piece: &[u8]) -> Option<Token>
    ensures { result ≡ number_of piece.now }
{
    let n = digits::number(piece, u64::from(MOST_VALUE))?;
    // At most the largest value of a word, so that a `try_from` would add a case that never comes.
    Some(Token::Number(n as u32))
}

// Named for its clause: the library's `==` says less plainly that bytes are equal.
fn is(piece: &[u8], name: &[u8]) -> bool
    ensures { result ≡ bytes_eq piece.now name.now }
{
    piece == name
}

// The name or the number that a piece is, where it is one.
// By `if`: a match on names goes byte by byte, and its proof did not close.
fn name_of(piece: &[u8]) -> Option<Token>
    ensures { result ≡ name_of piece.now }
{
    if is(piece, b"line") {
        Some(Token::Line)
    } else if is(piece, b"sum") {
        Some(Token::Sum)
    } else if is(piece, b"greater") {
        Some(Token::Greater)
    } else if is(piece, b"root") {
        Some(Token::Root)
    } else {
        number(piece)
    }
}

// The mark that a byte is, where it is one.
fn mark_of(b: u8) -> Option<Token>
    ensures { result ≡ mark_of b }
{
    match b {
        b'(' => Some(Token::Open),
        b')' => Some(Token::Close),
        b',' => Some(Token::Comma),
        b'[' => Some(Token::EntriesOpen),
        b']' => Some(Token::EntriesClose),
        _ => None,
    }
}

// The token that a piece is, where it is one.
fn token_of(piece: &[u8]) -> Option<Token>
    ensures { result ≡ token_of_piece piece.now }
{
    let first = piece.first()?;
    mark_of(*first).or_else(|| name_of(piece))
}

// Where the run ends that a text begins with, if something stands behind it.
fn run_end(text: &[u8]) -> Option<usize>
    ensures { result ≡ position (λ b. is_space_byte b || is_mark_byte b) text.now }
{
    text.iter().position(|b| ends_run(*b))
}

// How long that run is.
fn run_len(text: &[u8]) -> usize
    ensures { result ≡ run text.now }
{
    run_end(text).unwrap_or(text.len())
}

// The tokens of a text, where each of its pieces is one.
pub(crate) fn tokens(heap: Global, text: &[u8]) -> Result<Vec<Token>, Stop>
    ensures { Answer result (λ v. Some v.items ≡ tokens text.now) (None ≡ tokens text.now) }
{
    let mut all = Vec::new(heap);
    let mut left = text;
    while let Some((first, behind)) = left.split_first() {
        if is_space(*first) {
            left = behind;
            continue;
        }
        let (piece, rest) = left.split_at(run_len(left).max(1));
        all.push(token_of(piece).ok_or(Stop::NoNotation)?)?;
        left = rest;
    }
    Ok(all)
}
