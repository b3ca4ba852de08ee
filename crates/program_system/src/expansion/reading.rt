//! The reading of a text, character by character.
ghost use Rattle.std.specs.Prelude.{◌≡◌, OnOk, IfOk};
ghost use Rattle.std.specs.String.{string_bytes};
ghost use Rattle.just_text.specs.Expansion.{IsExpansion};
ghost use Rattle.program_system.specs.Expanded as spec;

use crate::expansion::environment::Environment;
use just_text::{ExpandFault, Text};
use std::alloc::{AllocError, Global};
use std::marker::Model;

/// What the reading is in.
#[derive(Clone, Copy, Debug, PartialEq, Eq)]
pub enum Mode {
    /// Text that stands for itself.
    Plain,
    /// After a `$`.
    Dollar,
    /// In the name after a `$`.
    Name,
    /// In the name after `${`.
    Braces,
    /// After the colon after that name.
    Colon,
    /// In the text after `${NAME:-`.
    Otherwise,
}

/// What was read so far.
#[derive(Drop)]
pub struct Reading {
    mode: Mode,
    /// What stands for the text so far, but for a reference that isn't at its end.
    output: String,
    /// The name in that reference.
    name: String,
    /// The text in that reference, for where the name is unset.
    otherwise: String,
}

impl Model for Reading {
    ghost use Rattle.program_system.specs.Expanded.{Read};
    ghost use Rattle.std.specs.String.{string_bytes};

    ghost Value = { Read };

    ghost view = { λ r. record { mode = r.mode; output = string_bytes r.output; name = string_bytes r.name; otherwise = string_bytes r.otherwise } };
}

/// Whether a name may begin with the character.
fn begins_name(character: char) -> bool
    ensures { result ≡ spec.begins_name character }
{
    character.is_ascii_alphabetic() || character == '_'
}

/// Whether the character may stand in a name.
fn is_of_name(character: char) -> bool
    ensures { result ≡ spec.is_of_name character }
{
    character.is_ascii_alphanumeric() || character == '_'
}

/// Whether the character may stand after this beginning of a name.
fn continues_name(name: &str, character: char) -> bool
    ensures { result ≡ spec.continues_name name.now character }
{
    if name.is_empty() {
        begins_name(character)
    } else {
        is_of_name(character)
    }
}

/// The refusal of an unset variable.
fn unset(alloc: Global, name: &str) -> ExpandFault
    ensures { spec.IsRefusal name.now result }
{
    match Text::from_text(alloc, name) {
        Ok(text) => ExpandFault::Refused(text),
        Err(_) => ExpandFault::OutOfMemory,
    }
}

/// The refusal of braces that hold no reference.
fn ill_formed(alloc: Global, name: &str) -> ExpandFault
    ensures { spec.IsRefusal (spec.opened name.now) result }
{
    match format!(in alloc; "${{{name}") {
        Ok(text) => ExpandFault::Refused(Text::from_string(text)),
        Err(_) => ExpandFault::OutOfMemory,
    }
}

impl Reading {
    /// Nothing is read, and this stands for what came before.
    pub fn new(alloc: Global, output: String) -> Reading
        ensures { result ≡ spec.begun (string_bytes output) }
    {
        Reading {
            mode: Mode::Plain,
            output,
            name: String::new(alloc),
            otherwise: String::new(alloc),
        }
    }

    /// Takes a character that belongs to no reference.
    fn take_plain(&mut self, character: char) -> Result<(), AllocError>
        ensures { OnOk result (self.new ≡ spec.plain self.old character) }
    {
        if character == '$' {
            self.mode = Mode::Dollar;
            self.name.clear();
            self.otherwise.clear();
            Ok(())
        } else {
            self.mode = Mode::Plain;
            self.output.push(character)
        }
    }

    /// Takes a character after a `$` that begins no reference.
    fn take_with_dollar(&mut self, character: char) -> Result<(), AllocError>
        ensures { OnOk result (self.new ≡ spec.with_dollar self.old character) }
    {
        self.mode = Mode::Plain;
        self.output.push('$')?;
        self.output.push(character)
    }

    /// Takes the character after a `$`.
    fn take_behind_dollar(&mut self, character: char) -> Result<(), AllocError>
        ensures { OnOk result (self.new ≡ spec.behind_dollar self.old character) }
    {
        if character == '{' {
            self.mode = Mode::Braces;
            Ok(())
        } else if begins_name(character) {
            self.mode = Mode::Name;
            self.name.push(character)
        } else {
            self.take_with_dollar(character)
        }
    }

    /// Puts what the name stands for into the reference's place.
    fn put_named(&mut self, alloc: Global, environment: &Environment) -> Result<(), ExpandFault>
        ensures { spec.LeadsTo (spec.named environment.now self.old) result self.new }
    {
        let Some(value) = environment.value(self.name.as_str()) else {
            return Err(unset(alloc, self.name.as_str()));
        };
        self.mode = Mode::Plain;
        Ok(self.output.push_str(value)?)
    }

    /// Puts what the name stands for into the reference's place, or the other text where it is unset.
    fn put_otherwise(&mut self, environment: &Environment) -> Result<(), AllocError>
        ensures { OnOk result (self.new ≡ spec.otherwise environment.now self.old) }
    {
        self.mode = Mode::Plain;
        match environment.value(self.name.as_str()) {
            Some(value) => self.output.push_str(value),
            None => self.output.push_str(self.otherwise.as_str()),
        }
    }

    /// Takes a character after a name.
    fn take_behind_name(
        &mut self,
        alloc: Global,
        environment: &Environment,
        character: char,
    ) -> Result<(), ExpandFault>
        ensures { spec.LeadsTo (spec.in_name environment.now self.old character) result self.new }
    {
        if is_of_name(character) {
            return Ok(self.name.push(character)?);
        }
        self.put_named(alloc, environment)?;
        Ok(self.take_plain(character)?)
    }

    /// Takes a character after `${` and a beginning of a name.
    fn take_in_braces(
        &mut self,
        alloc: Global,
        environment: &Environment,
        character: char,
    ) -> Result<(), ExpandFault>
        ensures { spec.LeadsTo (spec.in_braces environment.now self.old character) result self.new }
    {
        if continues_name(self.name.as_str(), character) {
            return Ok(self.name.push(character)?);
        }
        if self.name.is_empty() {
            return Err(ill_formed(alloc, self.name.as_str()));
        }
        match character {
            '}' => self.put_named(alloc, environment),
            ':' => {
                self.mode = Mode::Colon;
                Ok(())
            }
            _ => Err(ill_formed(alloc, self.name.as_str())),
        }
    }

    /// Takes the character after a name and a colon.
    fn take_behind_colon(&mut self, alloc: Global, character: char) -> Result<(), ExpandFault>
        ensures { spec.LeadsTo (spec.behind_colon self.old character) result self.new }
    {
        if character == '-' {
            self.mode = Mode::Otherwise;
            return Ok(());
        }
        Err(ill_formed(alloc, self.name.as_str()))
    }

    /// Takes a character of the other text, or the brace at its end.
    fn take_otherwise(
        &mut self,
        environment: &Environment,
        character: char,
    ) -> Result<(), AllocError>
        ensures { OnOk result (self.new ≡ spec.in_otherwise environment.now self.old character) }
    {
        if character == '}' {
            self.put_otherwise(environment)
        } else {
            self.otherwise.push(character)
        }
    }

    /// Takes the next character.
    pub fn take(
        &mut self,
        alloc: Global,
        environment: &Environment,
        character: char,
    ) -> Result<(), ExpandFault>
        ensures { spec.LeadsTo (spec.taken environment.now self.old character) result self.new }
    {
        match self.mode {
            Mode::Plain => Ok(self.take_plain(character)?),
            Mode::Dollar => Ok(self.take_behind_dollar(character)?),
            Mode::Name => self.take_behind_name(alloc, environment, character),
            Mode::Braces => self.take_in_braces(alloc, environment, character),
            Mode::Colon => self.take_behind_colon(alloc, character),
            Mode::Otherwise => Ok(self.take_otherwise(environment, character)?),
        }
    }

    /// Ends the reference that the text ends in, if it does.
    fn end(&mut self, alloc: Global, environment: &Environment) -> Result<(), ExpandFault>
        ensures { spec.LeadsTo (spec.ended environment.now self.old) result self.new }
    {
        match self.mode {
            Mode::Plain => Ok(()),
            Mode::Dollar => Ok(self.output.push('$')?),
            Mode::Name => self.put_named(alloc, environment),
            _ => Err(ill_formed(alloc, self.name.as_str())),
        }
    }

    /// What stands for the whole text, which ends here.
    pub fn finish(mut self, alloc: Global, environment: &Environment) -> Result<Text, ExpandFault>
        ensures { IsExpansion (spec.finished environment.now self) result }
    {
        self.end(alloc, environment)?;
        Ok(Text::from_string(self.output))
    }
}
