//! Sets of attributes.
ghost use Rattle.std.specs.Prelude.{◌≡◌, ◌≢◌, ◌↔◌, [], length, map, IfOk, IfErr, OnOk, IsTrue, Some, None, find, option_map};
ghost use Rattle.std.specs.List.{list_any};
ghost use Rattle.std.specs.Slice.Iter.{iter_rest};
ghost use Rattle.std.specs.Vec.Iter.{into_iter_items};
ghost use Rattle.std.specs.List.Sorted.{IsSorted};
ghost use Rattle.tree_attributes.specs.Sets.Order.{item_cmp, item_shape, items_in_order};
ghost use Rattle.just_text.specs.Tokens.{lexeme};
ghost use Rattle.just_text.specs.declared.compile_error.CompileErrorKind.TheVariants.{OutOfMemory};

use crate::attribute_item::AttributeItem;
use crate::item_kind::ItemKind;
use crate::systems::{is_system, kind_for, may_carry};
use crate::{Attribute, AttributeKind};
use just_text::{CompileError, CompileErrorKind, Name, Os, Text};
use std::alloc::{AllocError, Global};
use std::{fmt, slice, vec};
use tree_expressions::VariableNumbers;

/// The attributes of an item in their order: by name, then by printed arguments, then as they were
/// given.
pub struct AttributeSet<'src> {
    items: Vec<AttributeItem<'src>>,
    ghost in_order: { IsSorted item_cmp items.items },
}

impl Drop for AttributeSet<'_> {
    fn drop(self) {
        let AttributeSet { items: _items } = self;
    }
}

impl<'src> AttributeSet<'src> {
    ghost use Rattle.tree_attributes.specs.Sets.Sets as spec;
    ghost use Rattle.tree_attributes.specs.Sets.Sets.{items_of};
    ghost use Rattle.tree_attributes.specs.Sets.Numbering.{AreNumberedItems};

    /// The empty set, which takes no memory.
    pub fn new(alloc: Global) -> AttributeSet<'src>
        ensures { items_of result ≡ [] }
    {
        AttributeSet {
            items: Vec::new(alloc),
        }
    }

    /// Puts the items, which are given as they appear, in order.
    pub fn from_items(mut items: Vec<AttributeItem<'src>>) -> Result<AttributeSet<'src>, AllocError>
        ensures { IfOk result (λ set. items_of set ≡ items_in_order items.entry.items) }
    {
        items.sort()?;
        Ok(AttributeSet { items })
    }

    /// How many attributes there are.
    pub fn len(&self) -> usize
        ensures { result ≡ length (items_of self.now) }
    {
        self.items.len()
    }

    /// Whether there is no attribute.
    pub fn is_empty(&self) -> bool
        ensures { IsTrue result ↔ (items_of self.now ≡ []) }
    {
        self.items.is_empty()
    }

    /// The first item of this kind.
    fn find(&self, kind: AttributeKind) -> Option<&AttributeItem<'src>>
        ensures { option_map (λ item. item.now) result ≡ find (spec.is_of kind) (items_of self.now) }
    {
        self.items.iter().find(|item| item.is_of(kind))
    }

    /// The first attribute of this kind.
    pub fn get(&self, kind: AttributeKind) -> Option<&Attribute<'src>>
        ensures { option_map (λ attribute. attribute.now) result ≡ option_map (λ item. item.attribute) (find (spec.is_of kind) (items_of self.now)) }
    {
        match self.find(kind) {
            Some(item) => Some(&item.attribute),
            None => None,
        }
    }

    /// Where the name of the first attribute of this kind is written.
    pub fn name(&self, kind: AttributeKind) -> Option<Name<'src>>
        ensures { result ≡ option_map (λ item. item.name) (find (spec.is_of kind) (items_of self.now)) }
    {
        match self.find(kind) {
            Some(item) => Some(item.name),
            None => None,
        }
    }

    /// Whether there is an attribute of this kind.
    pub fn contains(&self, kind: AttributeKind) -> bool
        ensures { result ≡ list_any (spec.is_of kind) (items_of self.now) }
    {
        self.items.iter().any(|item| item.is_of(kind))
    }

    /// Whether the item is private by an attribute.
    pub fn private(&self) -> bool
        ensures { result ≡ spec.is_private (items_of self.now) }
    {
        self.contains(AttributeKind::Private)
    }

    /// Gives the variables in the attributes their numbers, those of an `env` the environment's. Takes
    /// no memory.
    pub fn number_variables<N: VariableNumbers>(&mut self, numbers: &N, environment: &N)
        ensures written { map spec.written_item (items_of self.new) ≡ map spec.written_item (items_of self.old) }
        ensures numbered { AreNumberedItems (N.number numbers.now) (N.number environment.now) (items_of self.old) (items_of self.new) }
    {
        for index in 0..self.items.len() {
            self.items[index].number_variables(numbers, environment);
        }
    }

    /// Goes over the attributes in their order.
    pub fn iter(&self) -> slice::Iter<'_, AttributeItem<'src>>
        ensures { iter_rest result ≡ items_of self.now }
    {
        self.items.iter()
    }

    /// The attributes in their order. Takes no memory.
    pub fn into_items(self) -> Vec<AttributeItem<'src>>
        ensures list { result.items ≡ items_of self.entry }
        ensures in_order { IsSorted item_cmp result.items }
    {
        let AttributeSet { items } = self;
        items
    }

    /// The texts of the groups in the order of their attributes.
    pub fn groups(&self, alloc: Global) -> Result<Vec<&str>, AllocError>
        ensures { IfOk result (λ groups. map (λ group. group.now) groups.items ≡ spec.groups_of (items_of self.now)) }
    {
        let mut groups = Vec::new(alloc);
        for item in &self.items {
            match item.group() {
                Some(group) => groups.push(group)?,
                None => {}
            }
        }
        Ok(groups)
    }

    fn names_system(&self) -> bool
        ensures { result ≡ list_any (λ item. spec.names_system (item_shape item)) (items_of self.now) }
    {
        self.items
            .iter()
            .any(|item| is_system(item.attribute.kind()))
    }

    /// Whether the item is there under the operating system: where no attribute names a system, or
    /// one names this system or the family `unix`. Windows is no such system.
    pub fn is_enabled(&self, os: Os) -> bool
        ensures { result ≡ spec.is_enabled os (items_of self.now) }
    {
        !self.names_system() || self.contains(AttributeKind::Unix) || self.contains(kind_for(os))
    }

    /// The first item that one of this kind may not carry.
    fn first_misfit(&self, carrier: ItemKind) -> Option<&AttributeItem<'src>>
        ensures { option_map (λ item. item.now) result ≡ find (spec.is_misfit carrier) (items_of self.now) }
    {
        self.items
            .iter()
            .find(|item| !may_carry(carrier, item.attribute.kind()))
    }

    /// Whether an item of this kind and name may carry each of the attributes. The first that it may
    /// not carry is refused as `InvalidAttribute`, with the attribute's name and the item's, at the
    /// item's name; want of memory for that refusal as `OutOfMemory`.
    pub fn ensure_valid_attributes(
        &self,
        alloc: Global,
        carrier: ItemKind,
        name: Name<'src>,
    ) -> Result<(), CompileError<'src>>
        ensures fits { OnOk result (spec.misfit carrier (lexeme name.entry.token) (items_of self.now) ≡ None) }
        ensures refused { IfErr result (λ e. e.kind ≢ OutOfMemory → (spec.misfit carrier (lexeme name.entry.token) (items_of self.now) ≡ Some e.kind) × (e.token ≡ name.entry.token)) }
    {
        let Some(item) = self.first_misfit(carrier) else {
            return Ok(());
        };
        let attribute = Text::from_text(alloc, item.attribute.name())?;
        let item_name = Text::from_text(alloc, name.lexeme())?;
        let kind = CompileErrorKind::InvalidAttribute(attribute, item_name);
        Err(name.token.error(kind))
    }
}

/// One attribute a line.
impl fmt::Display for AttributeSet<'_> {
    ghost use Rattle.tree_attributes.specs.Attributes.{attributes_text};
    ghost use Rattle.tree_attributes.specs.Sets.Sets.{shapes_in};

    ghost output = { λ set. Some (attributes_text (shapes_in set)) };

    #[tactic(auto, using(crate::proofs::Sets::TextsInRow::texts_next))]
    fn fmt<W: fmt::Write>(&self, f: &mut fmt::Formatter<W>) -> fmt::Result {
        for item in &self.items {
            let attribute = &item.attribute;
            write!(f, "[{attribute}]\n")?;
        }
        Ok(())
    }
}

/// By the attributes' names and printed arguments, in their order; where they are written doesn't
/// count.
impl PartialEq for AttributeSet<'_> {
    ghost use Rattle.std.specs.Cmp.{partial_equiv_from_equiv};
    ghost use Rattle.std.specs.Cmp.Lexicographic.{pointwise, lists_equiv};
    ghost use Rattle.std.specs.Ordering.{on};
    ghost use Rattle.std.proofs.lemmas.Cmp.{on_equiv};
    ghost use Rattle.tree_attributes.specs.Sets.Order.{item_eq, item_equiv};
    ghost use Rattle.tree_attributes.specs.Sets.Sets.{items_of};

    ghost eq = { on items_of (pointwise item_eq) };

    ghost laws = { partial_equiv_from_equiv (on_equiv items_of (lists_equiv item_equiv)) };

    fn eq(&self, other: &Self) -> bool {
        self.items == other.items
    }
}

impl Eq for AttributeSet<'_> {
    ghost use Rattle.std.specs.Cmp.Lexicographic.{lists_equiv};
    ghost use Rattle.std.proofs.lemmas.Cmp.{on_equiv};
    ghost use Rattle.tree_attributes.specs.Sets.Order.{item_equiv};
    ghost use Rattle.tree_attributes.specs.Sets.Sets.{items_of};

    ghost laws = { on_equiv items_of (lists_equiv item_equiv) };
}

impl<'src> IntoIterator for AttributeSet<'src> {
    ghost use Rattle.tree_attributes.specs.Sets.Sets.{items_of};

    type Item = AttributeItem<'src>;

    type IntoIter = vec::IntoIter<AttributeItem<'src>>;

    ghost into_iter_gives = { λ set items. into_iter_items items ≡ items_of set };

    fn into_iter(self) -> vec::IntoIter<AttributeItem<'src>> {
        self.into_items().into_iter()
    }
}

impl<'a, 'src> IntoIterator for &'a AttributeSet<'src> {
    ghost use Rattle.tree_attributes.specs.Sets.Sets.{items_of};

    type Item = &'a AttributeItem<'src>;

    type IntoIter = slice::Iter<'a, AttributeItem<'src>>;

    ghost into_iter_gives = { λ set items. iter_rest items ≡ items_of set.now };

    fn into_iter(self) -> slice::Iter<'a, AttributeItem<'src>> {
        self.iter()
    }
}
