//! Paths of modules.
ghost use Rattle.std.specs.Prelude.{◌≡◌, ◌∷◌, ◌++◌, [], IfOk, Some, None, OnOk, if◌then◌else◌, length, map, slice_get};
ghost use Rattle.std.specs.Cmp.Rules.{comparing};
ghost use Rattle.std.specs.List.{list_all, starts_with};
ghost use Rattle.std.specs.Option.{option_map};
ghost use Rattle.std.specs.Str.{bytes_eq};
ghost use Rattle.std.proofs.Common.{rules};
ghost use Rattle.just_text.specs.Tokens.{lexeme};
ghost use Rattle.modules_compilation.specs.Modulepaths as spec;
ghost use Rattle.modules_compilation.specs.Modulepaths.{paths_cmp, paths_eq, paths_ties};
ghost use Rattle.just_text.specs.Names.{joined_names};
ghost use Rattle.modules_compilation.specs.Tables.{texts};

use crate::module_node::ModuleNode;
use just_text::{Namepath, Text};
use std::alloc::{AllocError, Global};
use std::cmp::Ordering;
use std::fmt;
use std::marker::Model;

/// The names of modules and of an item in them, from the root on.
#[derive(Drop)]
pub struct Modulepath {
    components: Vec<Text>,
}

impl Model for Modulepath {
    ghost use Rattle.std.specs.Prelude.{List, ℕ};

    ghost Value = { List (List ℕ) };

    ghost view = { λ p. p.components.items };
}

/// Whether the byte can begin a name.
fn is_start(byte: u8) -> bool
    ensures { result ≡ spec.is_start byte }
{
    byte.is_ascii_alphabetic() || byte == b'_'
}

/// Whether the byte can stand in a name.
fn is_continue(byte: u8) -> bool
    ensures { result ≡ spec.is_continue byte }
{
    is_start(byte) || byte.is_ascii_digit() || byte == b'-'
}

/// Whether each byte can stand in a name.
fn continues(bytes: &[u8]) -> bool
    ensures { result ≡ list_all spec.is_continue bytes.now }
{
    bytes.iter().all(|byte| is_continue(*byte))
}

/// Whether the text is a name as files have them.
fn is_name(text: &str) -> bool
    ensures { result ≡ spec.is_name text.now }
{
    match text.as_bytes() {
        [] => false,
        [first, others @ ..] => is_start(*first) && continues(others),
    }
}

/// Puts the name after the others; false where the text is no name.
fn push_name(alloc: Global, components: &mut Vec<Text>, text: &str) -> Result<bool, AllocError>
    ensures name { IfOk result (λ pushed. pushed ≡ spec.is_name text.now) }
    ensures grown { IfOk result (λ pushed. components.new.items ≡ (if pushed then components.old.items ++ text.now ∷ [] else components.old.items)) }
{
    if !is_name(text) {
        return Ok(false);
    }
    components.push(Text::from_text(alloc, text)?)?;
    Ok(true)
}

/// The names with `::` between them; none where one is no name.
fn cut(alloc: Global, word: &str) -> Result<Option<Vec<Text>>, AllocError>
    ensures { IfOk result (λ path. option_map (λ p. p.items) path ≡ spec.path_of_word word.now) }
{
    let mut components = Vec::new(alloc);
    let mut rest = word;
    while let Some((name, others)) = rest.split_once("::") {
        if !push_name(alloc, &mut components, name)? {
            return Ok(None);
        }
        rest = others;
    }
    if push_name(alloc, &mut components, rest)? {
        Ok(Some(components))
    } else {
        Ok(None)
    }
}

/// The words as names; none where one is no name.
fn names(alloc: Global, words: &[&str]) -> Result<Option<Vec<Text>>, AllocError>
    ensures { IfOk result (λ path. option_map (λ p. p.items) path ≡ spec.names (texts words.now)) }
{
    let mut components = Vec::new(alloc);
    for word in words {
        if !push_name(alloc, &mut components, word)? {
            return Ok(None);
        }
    }
    Ok(Some(components))
}

/// The module at the place, if there is one.
fn node_at<'a, 'src>(
    modules: &'a [ModuleNode<'src>],
    place: Option<usize>,
) -> Option<&'a ModuleNode<'src>>
    ensures { option_map (λ node. node.now) result ≡ spec.node_at modules.now place }
{
    match place {
        Some(place) => modules.get(place),
        None => None,
    }
}

/// Puts the module's name after the others; the root has none.
fn push_own_name(
    alloc: Global,
    components: &mut Vec<Text>,
    node: &ModuleNode,
) -> Result<(), AllocError>
    ensures { OnOk result (components.new.items ≡ components.old.items ++ spec.own_names node.now) }
{
    if let Some(name) = &node.name {
        components.push(Text::from_text(alloc, name.lexeme())?)?;
    }
    Ok(())
}

/// The names of the module at the place and of those above it, its own first.
fn names_up(alloc: Global, modules: &[ModuleNode], module: usize) -> Result<Vec<Text>, AllocError>
    ensures { IfOk result (λ names. names.items ≡ spec.names_up modules.now (slice_get modules.now «module») (length modules.now)) }
{
    let mut components = Vec::new(alloc);
    let mut next = Some(module);
    for _ in 0..modules.len() {
        let Some(node) = node_at(modules, next) else {
            return Ok(components);
        };
        push_own_name(alloc, &mut components, node)?;
        next = node.parent;
    }
    Ok(components)
}

impl Modulepath {
    /// The path that words write: one word has its names with `::` between them; otherwise each word
    /// is a name, and no word is the empty path. None where a name is none that a file can have.
    pub fn try_from(alloc: Global, words: &[&str]) -> Result<Option<Modulepath>, AllocError>
        ensures { IfOk result (λ path. path ≡ spec.path_of_words (texts words.now)) }
    {
        let components = match words {
            [word] => cut(alloc, word)?,
            _ => names(alloc, words)?,
        };
        match components {
            Some(components) => Ok(Some(Modulepath { components })),
            None => Ok(None),
        }
    }

    /// The path that one word writes, as `try_from` reads it.
    pub fn from_argument(alloc: Global, word: &str) -> Result<Option<Modulepath>, AllocError>
        ensures { IfOk result (λ path. path ≡ spec.path_of_word word.now) }
    {
        match cut(alloc, word)? {
            Some(components) => Ok(Some(Modulepath { components })),
            None => Ok(None),
        }
    }

    /// The path of these names.
    pub fn from_namepath(alloc: Global, path: &Namepath) -> Result<Modulepath, AllocError>
        ensures { IfOk result (λ p. p ≡ map (λ name. lexeme name.token) path.now) }
    {
        let mut components = Vec::new(alloc);
        for name in path.names() {
            components.push(Text::from_text(alloc, name.lexeme())?)?;
        }
        Ok(Modulepath { components })
    }

    /// The path of the module at the place among these, of which each stands after its parent; empty
    /// for the root, and where there is no such module.
    pub fn of_module(
        alloc: Global,
        modules: &[ModuleNode],
        module: usize,
    ) -> Result<Modulepath, AllocError>
        ensures { IfOk result (λ p. p ≡ spec.path_in modules.now «module») }
    {
        let mut components = names_up(alloc, modules, module)?;
        components.reverse();
        Ok(Modulepath { components })
    }

    /// The path with one more name after it.
    pub fn join(&self, alloc: Global, name: &str) -> Result<Modulepath, AllocError>
        ensures { IfOk result (λ p. p ≡ self.now ++ name.now ∷ []) }
    {
        let mut components = self.components.clone()?;
        components.push(Text::from_text(alloc, name)?)?;
        Ok(Modulepath { components })
    }

    /// The names in order.
    pub fn components(&self) -> &[Text]
        ensures { result.now ≡ self.now }
    {
        self.components.as_slice()
    }

    /// Whether the first names are those of the other path.
    pub fn starts_with(&self, other: &Modulepath) -> bool
        ensures { result ≡ starts_with bytes_eq self.now other.now }
    {
        self.components
            .as_slice()
            .starts_with(other.components.as_slice())
    }
}

/// The names with `::` between them.
impl fmt::Display for Modulepath {
    ghost output = { λ path. Some (joined_names path) };

    fn fmt<W: fmt::Write>(&self, f: &mut fmt::Formatter<W>) -> fmt::Result {
        let Some((first, others)) = self.components.split_first() else {
            return Ok(());
        };
        write!(f, "{first}")?;
        for name in others {
            write!(f, "::{name}")?;
        }
        Ok(())
    }
}

impl fmt::Debug for Modulepath {
    fn fmt<W: fmt::Write>(&self, f: &mut fmt::Formatter<W>) -> fmt::Result {
        fmt::Debug::fmt(&self.components, f)
    }
}

impl PartialEq for Modulepath {
    ghost eq = { paths_eq };

    ghost laws = { Prim.search (comparing, rules) depth 12 };

    fn eq(&self, other: &Modulepath) -> bool {
        self.components == other.components
    }
}

impl Eq for Modulepath {
    ghost laws = { Prim.search (comparing, rules) depth 12 };
}

impl PartialOrd for Modulepath {
    ghost use Rattle.std.specs.Cmp.{partial_order_from_own_ties};
    ghost use Rattle.std.specs.Ordering.{as_partial_cmp};

    ghost partial_cmp = { as_partial_cmp paths_cmp };

    ghost laws = { partial_order_from_own_ties (Prim.search (comparing, rules) depth 12) paths_ties };

    fn partial_cmp(&self, other: &Modulepath) -> Option<Ordering> {
        Some(self.cmp(other))
    }
}

/// Name by name, from the first one on.
impl Ord for Modulepath {
    ghost cmp = { paths_cmp };

    ghost total = { Prim.search (comparing, rules) depth 12 };

    ghost matches_partial_cmp = { Prim.search (comparing, rules) };

    ghost matches_eq = { paths_ties };

    fn cmp(&self, other: &Modulepath) -> Ordering {
        self.components.cmp(&other.components)
    }
}
