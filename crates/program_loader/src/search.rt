//! The files and the folders that texts name.

use crate::naming::{Naming, item_naming, may_precede_item, part_naming};
use just_lexer::Lexer;
use just_text::{CompileErrorKind, Token, TokenKind};
use memchr::memmem;
use modules_compilation::{folder_from, key_from};
use std::alloc::{AllocError, Global};
use std::collections::{BTreeSet, VecDeque};

/// What is named, by its path below the folder of the root file.
#[derive(Drop)]
pub enum Named {
    /// A file.
    File(String),
    /// A folder in which a submodule may have its file: nothing, or names with a `/` after each.
    Folder(String),
}

/// The search for files by what was read.
#[derive(Drop)]
pub struct Search {
    alloc: Global,
    /// The files that were named.
    files: BTreeSet<String>,
    /// The folders that were named.
    folders: BTreeSet<String>,
    /// What wasn't looked at, in the order in which it was named.
    open: VecDeque<Named>,
    /// Whether any file may be named.
    is_any: bool,
}

/// Whether the word stands in the text.
fn has_word(text: &str, word: &str) -> bool {
    memmem::find(text.as_bytes(), word.as_bytes()).is_some()
}

/// Puts the path among the others. Whether it wasn't there.
fn insert(alloc: Global, paths: &mut BTreeSet<String>, path: &str) -> Result<bool, AllocError> {
    if paths.contains(path) {
        return Ok(false);
    }
    paths.insert(String::from_str(alloc, path)?)?;
    Ok(true)
}

impl Search {
    /// A search in which nothing was named.
    pub fn new(alloc: Global) -> Search {
        Search {
            alloc,
            files: BTreeSet::new(alloc),
            folders: BTreeSet::new(alloc),
            open: VecDeque::new(alloc),
            is_any: false,
        }
    }

    /// Whether any file may be named by what was read.
    pub fn is_any(&self) -> bool {
        self.is_any
    }

    /// Takes out what was named first of what wasn't looked at.
    pub fn next(&mut self) -> Option<Named> {
        self.open.pop_front()
    }

    /// Takes in a file.
    pub fn add_file(&mut self, path: String) -> Result<(), AllocError> {
        if insert(self.alloc, &mut self.files, path.as_str())? {
            self.open.push_back(Named::File(path))?;
        }
        Ok(())
    }

    /// Takes in a folder in which a submodule may have its file.
    fn add_folder(&mut self, path: String) -> Result<(), AllocError> {
        if insert(self.alloc, &mut self.folders, path.as_str())? {
            self.open.push_back(Named::Folder(path))?;
        }
        Ok(())
    }

    /// Takes in what the text of the file names. A text that has neither word names nothing, and its lines are not looked
    /// at. What its lines name is taken where they tell it: else its tokens do.
    pub fn see_text(&mut self, file: &str, text: &str) -> Result<(), AllocError> {
        if !has_word(text, "import") && !has_word(text, "mod") {
            return Ok(());
        }
        for line in text.lines() {
            if !self.see_line(file, line)? {
                return self.see_items(file, text);
            }
        }
        Ok(())
    }

    /// Takes in what the parts of the line name, and tells whether the line says it: not where it is indented, as the lines
    /// of a body are, or where any file may be named.
    fn see_line(&mut self, file: &str, line: &str) -> Result<bool, AllocError> {
        let is_indented = line.starts_with(|c: char| c.is_whitespace());
        for part in line.split(']') {
            match part_naming(part) {
                Naming::Nothing => {}
                Naming::Any => return Ok(false),
                _ if is_indented => return Ok(false),
                naming => self.see(file, naming)?,
            }
        }
        Ok(true)
    }

    /// Takes in what the items of the text name. A text that has no tokens has no items.
    fn see_items(&mut self, file: &str, text: &str) -> Result<(), AllocError> {
        match Lexer::lex(self.alloc, file, text) {
            Ok(tokens) => self.see_tokens(file, tokens.as_slice()),
            Err(error) => match error.kind {
                CompileErrorKind::OutOfMemory => Err(AllocError),
                _ => Ok(()),
            },
        }
    }

    /// Takes in what the items name that these tokens have: one begins with the text or with its line, or after an attribute.
    fn see_tokens(&mut self, file: &str, tokens: &[Token]) -> Result<(), AllocError> {
        let mut may_begin = true;
        for (place, token) in tokens.iter().enumerate() {
            if token.kind != TokenKind::Whitespace {
                if may_begin {
                    self.see(file, item_naming(&tokens[place..]))?;
                }
                may_begin = may_precede_item(token.kind);
            }
        }
        Ok(())
    }

    /// Takes in what the file names.
    fn see(&mut self, file: &str, naming: Naming<'_>) -> Result<(), AllocError> {
        match naming {
            Naming::Nothing => Ok(()),
            Naming::Import(path) => self.see_file(file, path),
            Naming::Module(name) => self.see_module(file, name),
            Naming::ModuleAt(path) => self.see_module_at(file, path),
            Naming::Any => {
                self.is_any = true;
                Ok(())
            }
        }
    }

    /// Takes in a submodule without a path.
    fn see_module(&mut self, file: &str, name: &str) -> Result<(), AllocError> {
        let beside = format!(in self.alloc; "{name}.just")?;
        self.see_file(file, beside.as_str())?;
        self.see_folder(file, name)
    }

    /// Takes in a submodule's file or folder at the path.
    fn see_module_at(&mut self, file: &str, path: &str) -> Result<(), AllocError> {
        self.see_file(file, path)?;
        self.see_folder(file, path)
    }

    /// Takes in the file that the path names in the file.
    fn see_file(&mut self, file: &str, path: &str) -> Result<(), AllocError> {
        match key_from(self.alloc, file, path)? {
            Some(path) => self.add_file(path),
            None => Ok(()),
        }
    }

    /// Takes in the folder that the path names in the file.
    fn see_folder(&mut self, file: &str, path: &str) -> Result<(), AllocError> {
        match folder_from(self.alloc, file, path)? {
            Some(path) => self.add_folder(path),
            None => Ok(()),
        }
    }
}
