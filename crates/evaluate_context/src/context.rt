//! What an evaluation in a module rests on.
ghost use Rattle.std.specs.Prelude.{◌≡◌, All, Contains, IfNone, IfOk, IfSome, if◌then◌else◌, map, option_map};
ghost use Rattle.std.specs.String.{string_bytes};
ghost use Rattle.just_text.specs.Tokens.{lexeme};
ghost use Rattle.evaluate_context.specs.Environments.{IsEnvironmentIn};
ghost use Rattle.evaluate_context.specs.Folders.{folder_below};
ghost use Rattle.evaluate_context.specs.Functions.{first_named};

use crate::environment::JobEnvironment;
use crate::settings::Settings;
use just_host::{Config, Pair};
use just_text::{Name, Number};
use just_value::{Scope, path};
use modules_compilation::ModuleNode;
use std::alloc::{AllocError, Global};
use std::collections::BTreeMap;
use tree_items::{Assignment, FunctionDefinition};

/// A variable of a module that is borrowed.
#[derive(Clone, Copy)]
pub struct AssignmentRef<'run, 'src> {
    pub assignment: &'run Assignment<'src>,
}

/// A function of a module that is borrowed.
#[derive(Clone, Copy)]
pub struct FunctionRef<'run, 'src> {
    pub definition: &'run FunctionDefinition<'src>,
}

/// What evaluation sees of a module. All lists are borrowed.
#[derive(Clone, Copy)]
pub struct ModuleView<'run, 'src> {
    /// The variables, in byte order of their names.
    pub assignments: &'run [AssignmentRef<'run, 'src>],
    /// The variables' places, each after those that it reads.
    pub evaluation_order: &'run [usize],
    /// The functions, in byte order of their names.
    pub functions: &'run [FunctionRef<'run, 'src>],
    pub settings: &'run Settings,
    /// The key of the module's file.
    pub source: &'run str,
    /// All modules, of which each stands after its parent.
    pub modules: &'run [ModuleNode<'src>],
    /// The module's place among these.
    pub place: usize,
    /// The folder of the module's file: the parent of the base joined with the file's key.
    pub working_directory: &'run str,
    /// The names that are not exported, in byte order.
    pub unexports: &'run [Name<'src>],
    pub is_submodule: bool,
}

/// What an evaluation in a module rests on.
#[derive(Clone, Copy)]
pub struct ExecutionContext<'run, 'src> {
    pub config: &'run Config,
    /// What files of variables gave for the module.
    pub dotenv: &'run BTreeMap<String, String>,
    pub module: &'run ModuleView<'run, 'src>,
    /// Texts in place of variables' values.
    pub overrides: &'run BTreeMap<Number, String>,
    /// The module's frame inside the constants' frame.
    pub scope: &'run Scope<'run, 'src>,
    /// The key of the root file.
    pub root: &'run str,
}

/// The first function of this name among those that are given, none where no function has it.
pub fn find_function<'a, 'src>(
    functions: &'a [FunctionRef<'a, 'src>],
    name: &str,
) -> Option<&'a FunctionDefinition<'src>>
    ensures among { IfSome result (λ f. Contains (map (λ f. f.definition.now) functions.now) f.now) }
    ensures named { IfSome result (λ f. lexeme f.now.name.token ≡ name.now) }
    ensures first { option_map (λ f. f.now) result ≡ first_named name.now functions.now }
    ensures none { IfNone result (All (λ f. ¬ (lexeme f.definition.now.name.token ≡ name.now)) functions.now) }
{
    for function in functions {
        if function.definition.name.lexeme() == name {
            return Some(function.definition);
        }
    }
    None
}

impl<'run, 'src> ExecutionContext<'run, 'src> {
    /// The folder of the module's commands: the configuration's for the root, else that of the
    /// module's file, joined with the setting `working-directory`.
    pub fn working_directory(&self, alloc: Global) -> Result<String, AllocError>
        ensures { IfOk result (λ s. string_bytes s ≡ folder_below (if self.now.module.now.is_submodule then self.now.module.now.working_directory.now else string_bytes self.now.config.now.working_directory) self.now.module.now.settings.now.working_directory) }
    {
        let base = if self.module.is_submodule {
            self.module.working_directory
        } else {
            self.config.working_directory.as_str()
        };
        match &self.module.settings.working_directory {
            Some(folder) => path::join(alloc, base, folder.as_str()),
            None => String::from_str(alloc, base),
        }
    }

    /// The environment of commands: what the files of variables gave for the module, then the
    /// exported bindings of the frames around the scope's innermost one, outermost first, without
    /// the names that are not exported, then these pairs; the last value of a name counts, and names
    /// stand in byte order.
    pub fn job_environment(
        &self,
        alloc: Global,
        env: &[Pair],
        scope: &Scope,
    ) -> Result<JobEnvironment, AllocError>
        ensures { IfOk result (λ e. IsEnvironmentIn self.now env.now scope.now e.pairs e.removed) }
    {
        let module = self.module;
        let export = module.settings.export;
        JobEnvironment::of(alloc, self.dotenv, export, module.unexports, env, scope)
    }
}
