//! The lines of a text, each read by the grammar.
ghost use Rattle.std.specs.Prelude.{◌≡◌, ◌≢◌, ℕ, List, ◌+◌, ◌<◌, ◌≤◌, length, nat_eq, option_map, IfOk, vec_len, map, false};
ghost use Rattle.std.specs.List.{list_any};
ghost use Rattle.scripts_forms.specs.Seen.{seen, all_seen};
ghost use Rattle.scripts_forms.specs.Reading.{values_of};
ghost use Rattle.scripts_forms.specs.Lines as spec;
ghost use Rattle.scripts_asm.specs.Seen.{seen_body, seen_line, all_lines, all_texts};

use scripts_forms::{Key, Shape, Token, Word, is_value, shape_of, tokens_of};
use std::alloc::{AllocError, Global};

/// What stands behind the label of a line. `Instruction` holds the values in the order of the text.
#[derive(Drop)]
pub enum Body<'a> {
    Nothing,
    Absolute {
        name: &'a str,
        value: u64,
    },
    Instruction {
        shape: Shape,
        values: Vec<Token<'a>>,
    },
    BadToken,
    BadForm,
}

/// A line: its label, and what stands behind it.
#[derive(Drop)]
pub struct Line<'a> {
    pub label: Option<&'a str>,
    pub body: Body<'a>,
}

fn is_bad(token: Token<'_>) -> bool
    ensures { result ≡ spec.is_bad (seen token.entry) }
{
    matches!(token, Token::Bad)
}

fn has_bad(mut tokens: &[Token<'_>]) -> bool
    ensures { result ≡ list_any spec.is_bad (all_seen tokens.entry.now) }
{
    while let [token, rest @ ..] = tokens {
        if is_bad(*token) {
            return true;
        }
        tokens = rest;
    }
    false
}

/// The values of an instruction.
fn values<'a>(alloc: Global, mut tokens: &[Token<'a>]) -> Result<Vec<Token<'a>>, AllocError>
    ensures { IfOk result (λ values. all_seen values.items ≡ values_of (all_seen tokens.entry.now)) }
{
    let mut values = Vec::new(alloc);
    while let [token, rest @ ..] = tokens {
        if is_value(*token) {
            values.push(*token)?;
        }
        tokens = rest;
    }
    Ok(values)
}

/// `name:` at the front.
fn label_of<'a>(tokens: &[Token<'a>]) -> Option<&'a str>
    ensures { option_map (λ name. name.now) result ≡ spec.label_of (all_seen tokens.now) }
{
    match tokens {
        [Token::Name(name), Token::Mark(b':'), ..] => Some(*name),
        _ => None,
    }
}

/// What is behind the label.
fn unlabelled<'a, 'b>(tokens: &'b [Token<'a>]) -> &'b [Token<'a>]
    ensures { all_seen result.now ≡ spec.unlabelled (all_seen tokens.now) }
{
    match tokens {
        [Token::Name(_), Token::Mark(b':'), rest @ ..] => rest,
        _ => tokens,
    }
}

/// Tokens that are neither nothing nor an ABSOLUTE.
fn instruction<'a>(alloc: Global, tokens: &[Token<'a>]) -> Result<Body<'a>, AllocError>
    requires tokens { list_any spec.is_bad (all_seen tokens.now) ≡ false }
    requires some { 0 < length tokens.now }
    requires other { (name : List ℕ) (n : ℕ) → all_seen tokens.now ≢ spec.absolute name n }
    ensures { IfOk result (λ body. spec.IsBody (all_seen tokens.now) (seen_body body)) }
{
    match shape_of(alloc, tokens)? {
        Some(shape) => {
            let values = values(alloc, tokens)?;
            Ok(Body::Instruction { shape, values })
        }
        None => Ok(Body::BadForm),
    }
}

/// The tokens behind the label.
fn body_of<'a>(alloc: Global, tokens: &[Token<'a>]) -> Result<Body<'a>, AllocError>
    ensures { IfOk result (λ body. spec.IsBody (all_seen tokens.now) (seen_body body)) }
{
    if has_bad(tokens) {
        return Ok(Body::BadToken);
    }
    match tokens {
        [] => Ok(Body::Nothing),
        [
            Token::Reserved(Word::Key(Key::Absolute)),
            Token::Name(name),
            Token::Mark(b'='),
            Token::Number(n),
        ] => Ok(Body::Absolute {
            name: *name,
            value: *n,
        }),
        _ => instruction(alloc, tokens),
    }
}

/// The text of a line as a line.
fn line_of<'a>(alloc: Global, text: &'a str) -> Result<Line<'a>, AllocError>
    ensures { IfOk result (λ line. spec.IsLine text.now (seen_line line)) }
{
    let tokens = tokens_of(alloc, text)?;
    let label = label_of(tokens.as_slice());
    let body = body_of(alloc, unlabelled(tokens.as_slice()))?;
    Ok(Line { label, body })
}

/// The texts of the lines: a line ends with a line feed or with the text.
pub fn texts_of(alloc: Global, text: &str) -> Result<Vec<&str>, AllocError>
    ensures { IfOk result (λ texts. all_texts texts.items ≡ spec.lines_of text.now) }
{
    text.split('\n').collect(alloc)
}

/// Texts as lines, one by one.
pub fn lines_of<'a>(alloc: Global, mut texts: &[&'a str]) -> Result<Vec<Line<'a>>, AllocError>
    ensures lines { IfOk result (λ lines. spec.AreLines (all_texts texts.entry.now) (all_lines lines.items)) }
    ensures count { IfOk result (λ lines. vec_len lines ≡ length texts.entry.now) }
{
    let mut lines = Vec::new(alloc);
    while let [text, rest @ ..] = texts {
        lines.push(line_of(alloc, *text)?)?;
        texts = rest;
    }
    Ok(lines)
}
