// Cuts a text into tokens.
ghost use Rattle.std.specs.Prelude.{◌≡◌, ◌≤◌, length, drop, IfOk};
ghost use Rattle.sm_syntax.specs.text.Tokens.{lexed};

use crate::lexing::front::{Front, front_of};
use crate::lexing::token_list::Tokens;
use sm_syntax::{LexFault, Token};
use std::alloc::{AllocError, Global};

/// The tokens of a text, up to its first lexical fault.
pub fn tokens(alloc: Global, bytes: &[u8]) -> Result<Tokens, AllocError>
    ensures { IfOk result (λ t. (t.list.items, t.fault) ≡ lexed bytes.now) }
{
    let mut list = Vec::new(alloc);
    let mut rest = bytes;
    'cut: while let [first, ..] = rest {
        let place = (bytes.len() - rest.len()) as u64;
        let size = match front_of(*first, rest) {
            Front::Gap(size) => size,
            Front::Piece(kind, size) => {
                list.push(Token {
                    kind,
                    place,
                    size: size as u64,
                })?;
                size
            }
            Front::Fault(kind) => {
                return Ok(Tokens {
                    list,
                    fault: Some(LexFault { kind, place }),
                });
            }
        };
        rest = after(rest, size);
    }
    Ok(Tokens { list, fault: None })
}

// what is left of a text after `size` bytes
fn after(bytes: &[u8], size: usize) -> &[u8]
    requires { size ≤ length bytes.now }
    ensures { result.now ≡ drop size bytes.now }
{
    &bytes[size..]
}
