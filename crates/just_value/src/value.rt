//! Values: lists of texts.
ghost use Rattle.std.specs.Prelude.{◌≡◌, ◌≢◌, ◌<◌, ◌↔◌, ◌++◌, ◌∷◌, [], IfOk, IfErr, IsTrue, MatchResult, Some, None, codes, cond, if◌then◌else◌, is_ok, length, map};
ghost use Rattle.std.specs.Iterator.{IsFinite, size};
ghost use Rattle.std.specs.List.{flat_map};
ghost use Rattle.std.specs.Iterator.Runs.{WholeRun};
ghost use Rattle.std.specs.Ordering.{as_partial_cmp};
ghost use Rattle.std.specs.Slice.Iter.{iter_rest};
ghost use Rattle.std.specs.String.{string_bytes};
ghost use Rattle.std.specs.Vec.Iter.{into_iter_items};
ghost use Rattle.just_value.specs.Values.{joined, applied};
ghost use Rattle.just_value.specs.declared.fault.ValueFault.TheVariants.{OutOfMemory, Const};
ghost use Rattle.just_value.specs.declared.fault.ConstEvalError.TheVariants.{ListOperation};
ghost use Rattle.tree_expressions.specs.Operators.{list_separator};

use crate::combine::combine;
use crate::fault::{ConstEvalError, ValueFault};
use just_text::Token;
use std::alloc::{AllocError, AllocFailed, Global};
use std::cmp::Ordering;
use std::hash::{Hash, Hasher};
use std::marker::Model;
use std::{slice, vec};
use tree_expressions::ListOperator;

/// A list of texts. Contracts see it as the list of their bytes.
#[derive(Drop)]
pub struct Value {
    elements: Vec<String>,
}

impl Model for Value {
    ghost use Rattle.std.specs.Prelude.{List, ℕ, map};
    ghost use Rattle.std.specs.String.{string_bytes};

    ghost Value = { List (List ℕ) };

    ghost view = { λ v. map string_bytes v.elements.items };
}

impl Value {
    /// The empty list, which takes no memory.
    pub fn new(alloc: Global) -> Value
        ensures { result ≡ [] }
    {
        Value {
            elements: Vec::new(alloc),
        }
    }

    /// A copy of the text, alone.
    pub fn from_text(alloc: Global, text: &str) -> Result<Value, AllocError>
        ensures { IfOk result (λ v. v ≡ text.now ∷ []) }
    {
        let copy = String::from_str(alloc, text)?;
        Value::from_string(alloc, copy)
    }

    /// The text, alone.
    pub fn from_string(alloc: Global, text: String) -> Result<Value, AllocError>
        ensures { IfOk result (λ v. v ≡ string_bytes text ∷ []) }
    {
        let mut elements = Vec::with_capacity(alloc, 1)?;
        elements.push(text)?;
        Ok(Value { elements })
    }

    /// `true` alone, or the empty list.
    pub fn from_bool(alloc: Global, truth: bool) -> Result<Value, AllocError>
        ensures { IfOk result (λ v. v ≡ (if truth then codes "true" ∷ [] else [])) }
    {
        if truth {
            return Value::from_text(alloc, "true");
        }
        Ok(Value::new(alloc))
    }

    /// The texts in the order in which the iterator gives them.
    pub fn from_iter<I: Iterator<Item = String>>(
        alloc: Global,
        texts: I,
    ) -> Result<Value, AllocError>
        requires can { I.can_next texts }
        requires finite { IsFinite (I.remaining texts) }
        ensures { IfOk result (λ v. WholeRun I.next_gives texts (λ p. v ≡ map string_bytes p.items)) }
    {
        let elements: Vec<String> = texts.collect(alloc)?;
        Ok(Value { elements })
    }

    /// The elements of the lists, one list after the other.
    pub fn from_values(alloc: Global, values: Vec<Value>) -> Result<Value, AllocError>
        ensures { IfOk result (λ v. v ≡ flat_map (λ list. list) values.items) }
    {
        let mut all = Value::new(alloc);
        for value in values {
            all.append(value)?;
        }
        Ok(all)
    }

    /// The elements in order.
    pub fn elements(&self) -> &[String]
        ensures { map string_bytes result.now ≡ self.now }
    {
        self.elements.as_slice()
    }

    /// How many elements there are.
    pub fn len(&self) -> usize
        ensures { result ≡ length self.now }
    {
        self.elements.len()
    }

    /// Whether there is no element.
    pub fn is_empty(&self) -> bool
        ensures { IsTrue result ↔ (self.now ≡ []) }
    {
        self.elements.is_empty()
    }

    /// Whether there is an element, be it the empty text.
    pub fn is_truthy(&self) -> bool
        ensures { IsTrue result ↔ (0 < length self.now) }
    {
        !self.is_empty()
    }

    /// Puts the text after the others. A refused growth changes nothing and gives it back.
    pub fn push(&mut self, text: String) -> Result<(), AllocFailed<String>>
        ensures grown { self.new ≡ (if is_ok result then self.old ++ string_bytes text ∷ [] else self.old) }
        ensures returned { IfErr result (λ e. e.value ≡ text) }
    {
        self.elements.push(text)
    }

    /// Puts the other's elements after the own. A refused growth changes nothing.
    pub fn append(&mut self, other: Value) -> Result<(), AllocError>
        ensures { self.new ≡ (if is_ok result then self.old ++ other else self.old) }
    {
        let mut elements = other.into_elements();
        self.elements.append(&mut elements)
    }

    /// The elements with a space between two.
    pub fn join(&self, alloc: Global) -> Result<String, AllocError>
        ensures { IfOk result (λ s. string_bytes s ≡ joined self.now) }
    {
        let mut text = String::new(alloc);
        let Some((first, others)) = self.elements.split_first() else {
            return Ok(text);
        };
        text.push_str(first.as_str())?;
        for other in others {
            text.push(' ')?;
            text.push_str(other.as_str())?;
        }
        Ok(text)
    }

    /// The same, and the text itself where it is the only element.
    pub fn into_joined(self, alloc: Global) -> Result<String, AllocError>
        ensures { IfOk result (λ s. string_bytes s ≡ joined self) }
    {
        if self.elements.len() != 1 {
            return self.join(alloc);
        }
        let Value { mut elements } = self;
        match elements.pop() {
            Some(text) => Ok(text),
            None => Ok(String::new(alloc)),
        }
    }

    /// What the operator gives of this list and the other: a single text goes with each of one or
    /// more others, and lists of one length go pairwise, with the operator's separator between the
    /// two texts. Lists of other lengths are refused as `ListOperation`, at the token.
    pub fn apply<'src>(
        &self,
        alloc: Global,
        other: &Value,
        operator: ListOperator,
        token: Token<'src>,
    ) -> Result<Value, ValueFault<'src>>
        ensures value { IfOk result (λ v. applied (list_separator operator) self.now other.now ≡ Some v) }
        ensures refused { IfErr result (λ e. e ≢ OutOfMemory → (applied (list_separator operator) self.now other.now ≡ None) × (e ≡ Const (ListOperation self.now operator other.now token.entry))) }
    {
        let combined = combine(
            alloc,
            operator.separator(),
            self.elements(),
            other.elements(),
        )?;
        match combined {
            Some(elements) => Ok(Value { elements }),
            None => {
                let lhs = self.clone()?;
                let rhs = other.clone()?;
                Err(ValueFault::Const(ConstEvalError::ListOperation {
                    lhs,
                    operator,
                    rhs,
                    token,
                }))
            }
        }
    }

    /// The elements as they are held. Takes no memory.
    pub fn into_elements(self) -> Vec<String>
        ensures { map string_bytes result.items ≡ self }
    {
        let Value { elements } = self;
        elements
    }

    /// Goes over the elements in their order.
    pub fn iter(&self) -> slice::Iter<'_, String>
        ensures { map string_bytes (iter_rest result) ≡ self.now }
    {
        self.elements.iter()
    }
}

/// Takes the texts over, and no memory.
impl From<Vec<String>> for Value {
    ghost from_gives = { λ texts v. v ≡ map string_bytes texts.items };

    fn from(texts: Vec<String>) -> Value {
        Value { elements: texts }
    }
}

impl IntoIterator for Value {
    type Item = String;

    type IntoIter = vec::IntoIter<String>;

    ghost into_iter_gives = { λ v s. map string_bytes (into_iter_items s) ≡ v };

    fn into_iter(self) -> vec::IntoIter<String> {
        self.elements.into_iter()
    }
}

impl<'a> IntoIterator for &'a Value {
    type Item = &'a String;

    type IntoIter = slice::Iter<'a, String>;

    ghost into_iter_gives = { λ v s. map string_bytes (iter_rest s) ≡ v.now };

    fn into_iter(self) -> slice::Iter<'a, String> {
        self.iter()
    }
}

impl Clone for Value {
    ghost is_clone = { λ s t. t ≡ s };

    fn clone(&self) -> Result<Value, AllocError> {
        let elements = self.elements.clone()?;
        Ok(Value { elements })
    }
}

impl PartialEq for Value {
    ghost use Rattle.std.specs.Cmp.{partial_equiv_from_equiv};
    ghost use Rattle.std.specs.Cmp.Lexicographic.{lists_equiv};
    ghost use Rattle.std.proofs.lemmas.Cmp.{nat_list_eq_equiv};
    ghost use Rattle.just_value.specs.Order.{values_eq};

    ghost eq = { values_eq };

    ghost laws = { partial_equiv_from_equiv (lists_equiv nat_list_eq_equiv) };

    fn eq(&self, other: &Value) -> bool {
        self.elements == other.elements
    }
}

impl Eq for Value {
    ghost use Rattle.std.specs.Cmp.Lexicographic.{lists_equiv};
    ghost use Rattle.std.proofs.lemmas.Cmp.{nat_list_eq_equiv};

    ghost laws = { lists_equiv nat_list_eq_equiv };
}

impl PartialOrd for Value {
    ghost use Rattle.std.specs.Cmp.{partial_order_from_own_ties};
    ghost use Rattle.std.specs.Cmp.Rules.{comparing};
    ghost use Rattle.std.proofs.Common.{rules};
    ghost use Rattle.just_value.specs.Order.{values_cmp, values_ties};

    ghost partial_cmp = { as_partial_cmp values_cmp };

    ghost laws = { partial_order_from_own_ties (Prim.search (comparing, rules) depth 12) values_ties };

    fn partial_cmp(&self, other: &Value) -> Option<Ordering> {
        Some(self.cmp(other))
    }
}

/// Element by element, from the first one on, each byte by byte.
impl Ord for Value {
    ghost use Rattle.std.specs.Cmp.Rules.{comparing};
    ghost use Rattle.std.proofs.Common.{rules};
    ghost use Rattle.just_value.specs.Order.{values_cmp, values_ties};

    ghost cmp = { values_cmp };

    ghost total = { Prim.search (comparing, rules) depth 12 };

    ghost matches_partial_cmp = { Prim.search (comparing, rules) };

    ghost matches_eq = { values_ties };

    fn cmp(&self, other: &Value) -> Ordering {
        self.elements.cmp(&other.elements)
    }
}

impl Hash for Value {
    ghost use Rattle.std.specs.Cmp.Lexicographic.{bytes_decides};
    ghost use Rattle.std.specs.Hash.{items_Alike, same_Alike, slice, str};

    ghost hash_input = { slice str };

    ghost respects_eq = { (items_Alike (same_Alike str bytes_decides)).fed };

    fn hash<H: Hasher>(&self, state: &mut H) {
        self.elements.hash(state);
    }
}
