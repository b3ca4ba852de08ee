//! The parser of justfiles.
ghost use Rattle.std.specs.Prelude.{◌≡◌, IfErr, IfOk, List};
ghost use Rattle.just_lexer.specs.Lexes.{Lexes, pieces};
ghost use Rattle.just_text.specs.Tokens.{words_of};
ghost use Rattle.just_text.specs.declared.token.Token.{Token as ParsedToken};
ghost use Rattle.parse_expressions.specs.Literals.{from_file};
ghost use Rattle.parse_expressions.specs.Origins.{origin_of};
ghost use Rattle.tree_items.specs.Files.{ItemShape, item_shapes};
ghost use Rattle.parse_expressions.specs.Reading.{shown};
ghost use Rattle.parse_recipes.specs.Numbering.{AreFew, AreUsed, IsFrugal};
ghost use Rattle.justfile_syntax.specs.Files.{Derives};
ghost use Rattle.justfile_syntax.specs.Numbered.{AreInOrder};
ghost use Rattle.justfile_syntax.specs.Parsed.{GivesItems, IfNumbersUsed, IsReason, IsWhole, RefusalHolds, path_ahead};
ghost use Rattle.justfile_syntax.specs.Reads.{IsRefusal, Reads, Stands};

use crate::file::tree;
use crate::file_law::file_law;
use crate::refusal::refusal;
use just_lexer::Lexer;
use just_text::{CompileError, Expander, Numerator, Token};
use parse_expressions::{Context, Cursor};
use semver::Version;
use std::alloc::Global;
use tree_items::Ast;

/// Reads justfiles.
pub struct Parser;

/// The path of the first token; empty where there is none.
fn path_ahead<'src>(tokens: &[Token<'src>]) -> &'src str
    ensures { result.now ≡ path_ahead tokens.now }
{
    match tokens.first() {
        Some(token) => token.path,
        None => "",
    }
}

impl Parser {
    /// The tree of a justfile whose tokens these are: those of one text, whose last is the end of
    /// the file. `version` is the one that reads it, for `minimum-version`. Variables, parameters
    /// and recipes take the numerator's next numbers in order. The names of calls borrow the path of
    /// the first token.
    ///
    /// Refused where the tokens derive no file, with the first rule that is broken in order of
    /// reading: `UnexpectedToken` at the first token that no rule takes, or the rule that has a name
    /// of its own; with `NumbersUsed` where no number is left, and with `OutOfMemory`. After a
    /// refusal no tree is there. At most one number of each kind is used for each token but white
    /// space, also then; so `NumbersUsed` comes only where no more were left than such tokens.
    pub fn parse<'src, E: Expander>(
        alloc: Global,
        tokens: &[Token<'src>],
        expander: &E,
        version: &Version,
        numerator: &mut Numerator,
    ) -> Result<Ast<'src>, CompileError<'src>>
        // What is read is derived.
        ensures found { IfOk result (λ ast. Derives (E.expansion expander.now) version.now (words_of tokens.now) (item_shapes ast.items.items)) }
        // What is derived is read, unless memory or numbers run out.
        ensures only { (items : List ItemShape) → Derives (E.expansion expander.now) version.now (words_of tokens.now) items → GivesItems (AreUsed numerator.new) result items }
        // Where tokens are refused nothing is derived.
        ensures fault { IfErr result (λ e. RefusalHolds (AreUsed numerator.new) (E.expansion expander.now) version.now (words_of tokens.now) e.kind) }
        // The refusal is the first that reading meets, at its token; where attributes and parameters break a rule
        // together, its kind alone.
        ensures reason { IfErr result (λ e. IsReason (E.expansion expander.now) version.now tokens.now e.token e.kind) }
        ensures numbers { IfOk result (λ ast. AreInOrder numerator.old numerator.new ast.items.items) }
        // No more numbers of a kind are used than tokens stand here that are not white space.
        ensures frugal { IsFrugal (shown tokens.now) numerator.old numerator.new }
        // Numbers run out only where no more of one kind were left than such tokens stand here.
        ensures used { IfErr result (λ e. IfNumbersUsed (AreFew (shown tokens.now) numerator.old) e.kind) }
        ensures whole { IfOk result (IsWhole (from_file (path_ahead tokens.now) (E.expansion expander.now))) }
    {
        let path = path_ahead(tokens);
        let context = Context { expander, path };
        Parser::parse_in(alloc, tokens, &context, version, numerator)
    }

    // As `parse`, in that context.
    fn parse_in<'src, E: Expander>(
        alloc: Global,
        tokens: &[Token<'src>],
        context: &Context<'_, 'src, E>,
        version: &Version,
        numerator: &mut Numerator,
    ) -> Result<Ast<'src>, CompileError<'src>>
        ensures found { IfOk result (λ ast. Derives (E.expansion context.now.expander.now) version.now (words_of tokens.now) (item_shapes ast.items.items)) }
        ensures only { (items : List ItemShape) → Derives (E.expansion context.now.expander.now) version.now (words_of tokens.now) items → GivesItems (AreUsed numerator.new) result items }
        ensures fault { IfErr result (λ e. RefusalHolds (AreUsed numerator.new) (E.expansion context.now.expander.now) version.now (words_of tokens.now) e.kind) }
        ensures reason { IfErr result (λ e. IsReason (E.expansion context.now.expander.now) version.now tokens.now e.token e.kind) }
        ensures numbers { IfOk result (λ ast. AreInOrder numerator.old numerator.new ast.items.items) }
        ensures frugal { IsFrugal (shown tokens.now) numerator.old numerator.new }
        ensures used { IfErr result (λ e. IfNumbersUsed (AreFew (shown tokens.now) numerator.old) e.kind) }
        ensures whole { IfOk result (IsWhole (origin_of E.expansion context.now)) }
    {
        file_law();
        let mut cursor = Cursor::new(alloc, tokens);
        match tree(alloc, &mut cursor, context, numerator, version) {
            Ok(ast) => Ok(ast),
            Err(fault) => Err(refusal(fault, tokens)),
        }
    }

    /// The tree of a justfile's text, which borrows from the path and the text.
    ///
    /// Refused as `Lexer::lex` and `parse` refuse the text and its tokens. No number is used where
    /// the text has no tokens.
    pub fn parse_source<'src, E: Expander>(
        alloc: Global,
        path: &'src str,
        src: &'src str,
        expander: &E,
        version: &Version,
        numerator: &mut Numerator,
    ) -> Result<Ast<'src>, CompileError<'src>>
        // What is read, the text says.
        ensures found { IfOk result (λ ast. Reads (E.expansion expander.now) version.now src.now (item_shapes ast.items.items)) }
        // What the text says is read, unless memory or numbers run out.
        ensures only { (items : List ItemShape) → Reads (E.expansion expander.now) version.now src.now items → GivesItems (AreUsed numerator.new) result items }
        // A refusal holds of the text, which says nothing then.
        ensures refused { IfErr result (λ e. IsRefusal (E.expansion expander.now) version.now (AreUsed numerator.new) src.now e.kind) }
        // It stands at the lexer's fault, or at the token where reading halts; at which token attributes and
        // parameters break a rule together is not said.
        ensures place { IfErr result (λ e. Stands (E.expansion expander.now) version.now path.now src.now e.token e.kind) }
        ensures numbers { IfOk result (λ ast. AreInOrder numerator.old numerator.new ast.items.items) }
        // No more numbers of a kind are used than the text has tokens that are not white space.
        ensures frugal { (tokens : List ParsedToken) → Lexes src.now (pieces tokens) → IsFrugal (shown tokens) numerator.old numerator.new }
        // Numbers run out only where no more of one kind were left than such tokens.
        ensures used { (tokens : List ParsedToken) → Lexes src.now (pieces tokens) → IfErr result (λ e. IfNumbersUsed (AreFew (shown tokens) numerator.old) e.kind) }
        ensures whole { IfOk result (IsWhole (from_file path.now (E.expansion expander.now))) }
    {
        just_lexer::lexer::law();
        let tokens = Lexer::lex(alloc, path, src)?;
        let context = Context { expander, path };
        Parser::parse_in(alloc, tokens.as_slice(), &context, version, numerator)
    }
}
