// Makes symbols of tokens.
ghost use Rattle.std.specs.Prelude.{◌≡◌, ◌<◌, ◌≤◌, ◌+◌, ◌^◌, length, map, take, if◌then◌else◌, IfOk, OnOk, OnErr};
ghost use Rattle.std.specs.List.{position_or_len, AllByRecursion};
ghost use Rattle.std.specs.Str.{bytes_eq};
ghost use Rattle.sm_syntax.specs.text.Symbols.{is_name, with_text, names_after, symbol_by, symbols_of, names_of};
ghost use Rattle.sm_syntax.specs.text.Symbols as spec;
ghost use Rattle.sm_syntax.specs.text.Tokens.{lexed};
ghost use Rattle.sm_text.specs.resolving.TokenTexts.{IsText, IsTokenOf, sign_by};

use crate::lexing::front::value_of;
use crate::lexing::lexer::tokens;
use crate::lexing::marks::{mark_of_sign, mark_of_word};
use crate::resolving::symbol_list::Symbols;
use sm_syntax::{Mark, Name, NameTable, Symbol, Token, TokenKind};
use std::alloc::{AllocError, Global};
use std::str;

/// The symbols of the tokens of a text. Names are numbered by first appearance.
pub fn symbols(alloc: Global, bytes: &[u8], tokens: &[Token]) -> Result<Symbols, AllocError>
    requires short { length bytes.now < 2 ^ 32 }
    requires cut { tokens.now ≡ (lexed bytes.now).0 }
    ensures list { IfOk result (λ s. s.list.items ≡ symbols_of bytes.now) }
    ensures names { IfOk result (λ s. s.names ≡ names_of bytes.now) }
{
    let mut names = NameTable::new(alloc);
    let list = symbols_after(alloc, bytes, tokens, &mut names)?;
    Ok(Symbols { list, names })
}

/// The symbols of tokens of a text, where names that aren't in the table go after those that are.
pub(crate) fn symbols_after(
    alloc: Global,
    bytes: &[u8],
    tokens: &[Token],
    names: &mut NameTable,
) -> Result<Vec<Symbol>, AllocError>
    requires { AllByRecursion (IsTokenOf bytes.now) tokens.now }
    ensures list { IfOk result (λ s.
        s.items ≡ map (spec.symbol_of bytes.now names.new) tokens.now) }
    ensures names { OnOk result (names.new ≡ names_after bytes.now names.old tokens.now) }
    ensures kept { OnErr result (take (length names.old) names.new ≡ names.old) }
{
    let mut list = Vec::new(alloc);
    for token in tokens {
        let text = text_of(bytes, *token);
        let symbol = symbol_of(token.kind, text, names)?;
        list.push(symbol)?;
    }
    Ok(list)
}

/// The names of a text, by first appearance.
pub fn names(alloc: Global, bytes: &[u8]) -> Result<NameTable, AllocError>
    requires { length bytes.now < 2 ^ 32 }
    ensures { IfOk result (λ t. t ≡ names_of bytes.now) }
{
    let cut = tokens(alloc, bytes)?;
    let read = symbols(alloc, bytes, cut.list.as_slice())?;
    Ok(read.names)
}

/// The sign that a token is, if it is one.
pub(crate) fn sign_of(bytes: &[u8], token: Token) -> Option<Mark>
    requires { IsTokenOf bytes.now token }
    ensures { result ≡ sign_by token.kind (spec.text_of bytes.now token) }
{
    match token.kind {
        TokenKind::Word => None,
        TokenKind::Number => None,
        TokenKind::Sign => mark_of_sign(text_of(bytes, token)),
    }
}

// the bytes of a token
fn text_of(bytes: &[u8], token: Token) -> &[u8]
    requires { token.place + token.size ≤ length bytes.now }
    ensures { result.now ≡ spec.text_of bytes.now token }
{
    &bytes[token.place as usize..][..token.size as usize]
}

// the symbol of a token's bytes, where a name that is new goes last
fn symbol_of(kind: TokenKind, text: &[u8], names: &mut NameTable) -> Result<Symbol, AllocError>
    requires { IsText kind text.now }
    ensures symbol { IfOk result (λ s. s ≡ symbol_by kind names.new text.now) }
    ensures names { OnOk result (names.new ≡
        (if is_name kind text.now then with_text names.old text.now else names.old)) }
    ensures err { OnErr result (names.new ≡ names.old) }
{
    match kind {
        TokenKind::Word => {
            let word = str::from_utf8(text).unwrap();
            match mark_of_word(word) {
                Some(mark) => Ok(Symbol::Mark(mark)),
                None => {
                    let name = number_of(word, names)?;
                    Ok(Symbol::Name(name))
                }
            }
        }
        TokenKind::Number => Ok(Symbol::Number(value_of(text).unwrap())),
        TokenKind::Sign => Ok(Symbol::Mark(mark_of_sign(text).unwrap())),
    }
}

// the number of a name, where no room in the table counts as want of memory
fn number_of(name: &str, names: &mut NameTable) -> Result<Name, AllocError>
    ensures ok { OnOk result (names.new ≡ with_text names.old name.now) }
    ensures number { IfOk result (λ x. x.0 ≡ position_or_len (bytes_eq name.now) names.new) }
    ensures err { OnErr result (names.new ≡ names.old) }
{
    if names.len() < u32::MAX as usize {
        names.add(name)
    } else {
        Err(AllocError)
    }
}
