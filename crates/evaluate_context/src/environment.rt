//! The environment of a command.
ghost use Rattle.std.specs.Prelude.{◌≡◌, IfOk, List, ℕ, filter, is_some, map, not};
ghost use Rattle.std.specs.BTreeMap.{IsOrdered, get};
ghost use Rattle.std.specs.Cmp.Lexicographic.{slice_cmp};
ghost use Rattle.std.specs.Ordering.{nat_cmp};
ghost use Rattle.evaluate_context.specs.Environment as spec;

use crate::pairs::given_pairs;
use just_host::Pair;
use just_text::{Name, Sequence, Text};
use just_value::Scope;
use std::alloc::{AllocError, Global};
use std::collections::BTreeMap;

/// What a command is told of the environment.
#[derive(Drop)]
pub struct JobEnvironment {
    /// The variables and their values, in byte order of the names.
    pub pairs: Sequence<Pair>,
    /// The names that the environment lacks, in the order in which they were given.
    pub removed: Sequence<Text>,
}

impl JobEnvironment {
    /// The variables that are given by files of variables, then by the bindings of the frames around
    /// the scope's innermost one, outermost first, without the names of `unexports`, and then by
    /// `env`; the last value of a name counts. Of the bindings those count that are exported, under
    /// `export` all but constants. A name of `unexports` without a value is removed.
    pub fn of(
        alloc: Global,
        dotenv: &BTreeMap<String, String>,
        export: bool,
        unexports: &[Name],
        env: &[Pair],
        scope: &Scope,
    ) -> Result<JobEnvironment, AllocError>
        ensures { IfOk result (λ e. spec.IsEnvironment (spec.given_pairs dotenv.now.entries export (spec.texts unexports.now) env.now scope.now.outer) (spec.texts unexports.now) e.pairs e.removed) }
    {
        let pairs = given_pairs(alloc, dotenv, export, unexports, env, scope)?;
        environment_of(alloc, pairs, unexports)
    }
}

/// The environment that the pairs give, of which the last of a name counts.
fn environment_of(
    alloc: Global,
    pairs: Sequence<Pair>,
    unexports: &[Name],
) -> Result<JobEnvironment, AllocError>
    ensures { IfOk result (λ e. spec.IsEnvironment pairs (spec.texts unexports.now) e.pairs e.removed) }
{
    let values = last_values(alloc, pairs)?;
    let removed = missing(alloc, &values, unexports)?;
    let pairs = listed(alloc, values)?;
    Ok(JobEnvironment { pairs, removed })
}

/// The last value of each name.
fn last_values(alloc: Global, pairs: Sequence<Pair>) -> Result<BTreeMap<Text, Text>, AllocError>
    ensures { IfOk result (λ m. (name : List ℕ) → get (slice_cmp nat_cmp) m name ≡ spec.last_of name pairs) }
{
    let mut values = BTreeMap::new(alloc);
    for pair in pairs.into_vec() {
        values.insert(pair.name, pair.value)?;
    }
    Ok(values)
}

/// The names that have no value.
fn missing(
    alloc: Global,
    values: &BTreeMap<Text, Text>,
    names: &[Name],
) -> Result<Sequence<Text>, AllocError>
    ensures { IfOk result (λ found. found ≡ filter (λ name. not (is_some (get (slice_cmp nat_cmp) values.now name))) (spec.texts names.now)) }
{
    let mut found = Sequence::new(alloc);
    for name in names {
        let name = Text::from_text(alloc, name.lexeme())?;
        if !values.contains_key(&name) {
            found.push(name)?;
        }
    }
    Ok(found)
}

/// The names with their values, in byte order of the names.
fn listed(alloc: Global, values: BTreeMap<Text, Text>) -> Result<Sequence<Pair>, AllocError>
    ensures pairs { IfOk result (λ pairs. pairs ≡ map spec.pair_at values.entries) }
    ensures ordered { IfOk result (λ _. IsOrdered (slice_cmp nat_cmp) values) }
{
    let mut pairs = Sequence::new(alloc);
    for (name, value) in values {
        pairs.push(Pair { name, value })?;
    }
    Ok(pairs)
}
