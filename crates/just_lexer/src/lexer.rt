//! From a text to its tokens.

ghost use Rattle.std.specs.Prelude.{◌≡◌, ◌⊎◌, ℕ, List, IfOk, IfErr};
ghost use Rattle.std.specs.List.{flat_map};
ghost use Rattle.std.specs.Str.{IsCharBoundary};
ghost use Rattle.just_text.specs.Tokens.{lexeme};
ghost use Rattle.just_lexer.specs.Lexing.{kind_of};
ghost use Rattle.just_lexer.specs.Lexes.{Piece, pieces, position_of, Lexes};
ghost use Rattle.just_lexer.specs.Lexed.{Gives, FaultStands, HasFault, AllBorrow};
ghost use Rattle.just_text.specs.declared.compile_error.CompileErrorKind.{CompileErrorKind};
ghost use Rattle.just_text.specs.declared.compile_error.CompileErrorKind.TheVariants.{OutOfMemory};
ghost use Rattle.just_lexer.specs.declared.position.Position.{Position};

use crate::fault::{Fault, kind_of};
use crate::mode::{Line, innermost, step_open};
use crate::position::Position;
use crate::scan::place::token_at;
use just_text::{CompileError, CompileErrorKind, Token, TokenKind};
use std::alloc::Global;

/// The bytes of the longest text whose places 32 bits can tell.
const LONGEST: usize = u32::MAX as usize;

/// Reads a text token by token.
#[derive(Clone, Copy)]
pub struct Lexer<'src> {
    line: Line,
    position: Position,
    rest: &'src str,
}

impl<'src> Lexer<'src> {
    /// The tokens of the text, the last of which is `Eof`; they borrow from the path and the text.
    ///
    /// Refused where memory runs out, as it does for a text of 4 GiB or more, whose places 32 bits can't
    /// tell, and where no token stands after those before. Outside strings,
    /// comments and the text of bodies that is: a character that no token begins with, an ampersand or a
    /// bar alone, a string or a command that nothing ends, a backslash in front of anything but a line end,
    /// a carriage return without a newline, and a bracket that closes where another is the innermost open
    /// one, or none. In bodies it is: an expression that isn't ended in its line, a first line that is
    /// indented by spaces and tabs, and a later one that is indented otherwise. The refusal's token is
    /// empty and stands there. What is open at the end of the text is no refusal, but in a body.
    pub fn lex(
        alloc: Global,
        path: &'src str,
        src: &'src str,
    ) -> Result<Vec<Token<'src>>, CompileError<'src>>
        // The tokens are those of the text.
        ensures found { IfOk result (λ ts. Lexes src.now (pieces ts.items)) }
        // Their lexemes, joined in order, are the text.
        ensures tiles { IfOk result (λ ts. flat_map lexeme ts.items ≡ src.now) }
        // They borrow from what was given.
        ensures borrowed { IfOk result (λ ts. AllBorrow path.now src.now ts.items) }
        // Where the text has tokens, the answer is these, unless memory runs out.
        ensures only { (ts : List Piece) → Lexes src.now ts → Gives result ts }
        // An error is a fault after the tokens before it.
        ensures fault { IfErr result (λ e. FaultStands path.now src.now e.kind e.token) }
    {
        if src.len() > LONGEST {
            return Err(CompileError::without_place(CompileErrorKind::OutOfMemory));
        }
        let mut tokens = Vec::new(alloc);
        let mut opened = Vec::new(alloc);
        let mut lexer = Lexer {
            line: Line::Begin,
            position: Position::START,
            rest: src,
        };
        while !lexer.line.is_over() {
            let inner = innermost(opened.as_slice());
            let (kind, length) = match token_at(lexer.line, inner, lexer.rest.as_bytes()) {
                Ok(found) => found,
                Err(fault) => {
                    let kind = kind_of(alloc, fault, lexer.rest)?;
                    return Err(lexer.refusal(kind, path, src));
                }
            };
            let (lexeme, rest) = lexer.rest.split_at(length);
            let token = Token {
                column: lexer.position.column,
                kind,
                length: length as u32,
                line: lexer.position.line,
                offset: lexer.position.offset,
                path,
                src,
            };
            tokens.push(token)?;
            step_open(&mut opened, kind, lexeme)?;
            lexer = Lexer {
                line: lexer.line.after(inner, kind, lexeme),
                position: lexer.position.moved(kind, lexeme),
                rest,
            };
        }
        Ok(tokens)
    }

    /// The refusal of this kind at this place.
    fn refusal(self, kind: CompileErrorKind, path: &'src str, src: &'src str) -> CompileError<'src>
        requires { IsCharBoundary src.now self.position.offset }
        ensures kind { result.kind ≡ kind }
        ensures at { position_of result.token ≡ self.entry.position }
        ensures empty { result.token.length ≡ 0 }
        ensures of_path { result.token.path.now ≡ path.now }
        ensures of_src { result.token.src.now ≡ src.now }
    {
        CompileError {
            token: Token {
                column: self.position.column,
                kind: TokenKind::Text,
                length: 0,
                line: self.position.line,
                offset: self.position.offset,
                path,
                src,
            },
            kind,
        }
    }
}

/// No text has two token lists, and one that has tokens has no fault.
pub fn law()
    ensures one { (text : List ℕ) (ts us : List Piece) → Lexes text ts → Lexes text us → ts ≡ us }
    ensures faultless { (text : List ℕ) (ts : List Piece) (kind : CompileErrorKind) (at : Position) → Lexes text ts → HasFault text kind at → ⊥ }
{}
