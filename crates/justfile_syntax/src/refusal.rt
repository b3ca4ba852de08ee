//! Why a file is refused.
ghost use Rattle.justfile_syntax.specs.Parsed.{IsTooFew, last_token};
ghost use Rattle.justfile_syntax.specs.Told.{IsRefused, Tells};

use just_text::{CompileError, CompileErrorKind, Token, TokenKind};
use parse_expressions::Fault;

/// The refusal where tokens end too early, at the last of them.
fn too_few<'src>(tokens: &[Token<'src>]) -> CompileError<'src>
    ensures { IsTooFew (last_token tokens.now) result.token result.kind }
{
    match tokens.last() {
        Some(last) => last.error(CompileErrorKind::UnexpectedToken(last.kind)),
        None => CompileError::without_place(CompileErrorKind::UnexpectedToken(TokenKind::Eof)),
    }
}

/// The refusal of a token that breaks a rule. No rule is broken for want of numbers.
fn refused<'src>(token: Token<'src>, kind: CompileErrorKind) -> CompileError<'src>
    ensures { IsRefused token.entry kind result }
{
    match kind {
        CompileErrorKind::NumbersUsed => {
            CompileError::without_place(CompileErrorKind::OutOfMemory)
        }
        kind => token.error(kind),
    }
}

/// The refusal that tells a fault. Want of memory and of numbers has no place.
pub(crate) fn refusal<'src>(fault: Fault<'src>, tokens: &[Token<'src>]) -> CompileError<'src>
    ensures { Tells tokens.now fault.entry result }
{
    match fault {
        Fault::OutOfMemory => CompileError::without_place(CompileErrorKind::OutOfMemory),
        Fault::NumbersUsed => CompileError::without_place(CompileErrorKind::NumbersUsed),
        Fault::Unexpected(None) => too_few(tokens),
        Fault::Unexpected(Some(token)) => {
            token.error(CompileErrorKind::UnexpectedToken(token.kind))
        }
        Fault::Refused(token, kind) => refused(token, kind),
    }
}
