//! Scopes: frames inside one another.
ghost use Rattle.std.specs.Prelude.{◌≡◌, ◌+◌, ◌≤◌, ◌∷◌, [], IfOk, IfErr, OnOk, length, map};
ghost use Rattle.std.specs.Option.{option_map};
ghost use Rattle.std.specs.Ordering.{nat_cmp};
ghost use Rattle.just_value.specs.Constants.{constant_rows};
ghost use Rattle.just_value.specs.Frames.{BindsRows, Rebinds, ByNumber, bound_of, constant_binding, look_up, value_binding};
ghost use Rattle.just_value.specs.Searches.{IsPlace, digits};

use crate::bound::Bound;
use crate::constant::{CONSTANT_COUNT, constants};
use crate::frame::{Bindings, Frame};
use crate::steps::Steps;
use crate::value::Value;
use just_text::{Name, Number, Numerator, Token, TokenKind};
use std::alloc::{AllocError, AllocFailed, Global};
use std::marker::Model;

/// A frame of its own and those around it, innermost first.
#[derive(Drop)]
pub struct Scope<'outer, 'src> {
    own: Frame<'src>,
    outer: Vec<&'outer Frame<'src>>,
}

impl<'outer, 'src> Model for Scope<'outer, 'src> {
    ghost use Rattle.std.specs.Prelude.{map};
    ghost use Rattle.just_value.specs.Frames.{Frames};

    ghost Value = { Frames };

    ghost view = { λ s. record { own = s.own; outer = map (λ f. f.now) s.outer.items } };
}

impl<'outer, 'src> Scope<'outer, 'src> {
    /// The constants, numbered in their order.
    pub fn root(alloc: Global) -> Result<Scope<'outer, 'src>, AllocError>
        ensures bound { IfOk result (λ s. BindsRows constant_rows s.own × (s.outer ≡ [])) }
        ensures sorted { IfOk result (λ s. ByNumber s.own) }
    {
        let numerator = Numerator::new(CONSTANT_COUNT);
        let mut own = Frame::new(alloc);
        for index in 0..CONSTANT_COUNT {
            let (name, text) = constants()[index as usize];
            let number = numerator.constant(index);
            let binding = constant(alloc, number, name, text)?;
            own.bind(binding)?;
        }
        Ok(Scope {
            own,
            outer: Vec::new(alloc),
        })
    }

    /// An empty frame inside this scope's frames.
    pub fn child(&self, alloc: Global) -> Result<Scope<'_, 'src>, AllocError>
        ensures { IfOk result (λ s. (s.own ≡ []) × (s.outer ≡ self.now.own ∷ self.now.outer)) }
    {
        let mut outer = Vec::new(alloc);
        outer.push(&self.own)?;
        for frame in &self.outer {
            outer.push(*frame)?;
        }
        Ok(Scope {
            own: Frame::new(alloc),
            outer,
        })
    }

    /// Puts the binding into the innermost frame, in place of an earlier one of its number there. A
    /// refused growth changes nothing and gives the binding back.
    pub fn bind(&mut self, binding: Bound<'src>) -> Result<(), AllocFailed<Bound<'src>>>
        ensures bound { OnOk result (Rebinds self.old.own (bound_of binding.entry) self.new.own × (self.new.outer ≡ self.old.outer)) }
        ensures sorted { ByNumber self.new.own }
        ensures refused { IfErr result (λ e. (self.new ≡ self.old) × (bound_of e.value ≡ bound_of binding.entry)) }
    {
        self.own.bind(binding)
    }

    /// Binds the name to the value in the innermost frame, in place of an earlier binding of the number
    /// there; the binding is no constant. A refused growth changes nothing.
    #[tactic(auto, unfolding(crate::specs::Frames::bound_of))]
    pub fn bind_value(
        &mut self,
        name: Name<'src>,
        number: Number,
        export: bool,
        value: Value,
    ) -> Result<(), AllocError>
        ensures bound { OnOk result (Rebinds self.old.own (value_binding name.entry number export value) self.new.own × (self.new.outer ≡ self.old.outer)) }
        ensures sorted { ByNumber self.new.own }
        ensures refused { IfErr result (λ _. self.new ≡ self.old) }
    {
        let binding = Bound {
            export,
            name,
            number,
            prelude: false,
            value,
        };
        self.bind(binding)?;
        Ok(())
    }

    /// The number's binding in the innermost frame that has one. Takes no memory.
    pub fn binding(&self, number: Number) -> Option<&Bound<'src>>
        ensures { option_map (λ b. bound_of b.now) result ≡ look_up self.now number }
    {
        if let Some(binding) = self.own.binding(number) {
            return Some(binding);
        }
        for frame in &self.outer {
            if let Some(binding) = frame.binding(number) {
                return Some(binding);
            }
        }
        None
    }

    /// The value of the number's binding in the innermost frame that has one. Takes no memory.
    pub fn value(&self, number: Number) -> Option<&Value>
        ensures { option_map (λ v. v.now) result ≡ option_map (λ b. b.value) (look_up self.now number) }
    {
        match self.binding(number) {
            Some(binding) => Some(&binding.value),
            None => None,
        }
    }

    /// The place of the number's binding among those of the innermost frame by their numbers, or else
    /// the place where one would go. Takes no memory, and at most as many comparisons as the count of
    /// its bindings has binary digits.
    pub fn position(&self, number: Number, steps: &mut Steps) -> Result<usize, usize>
        ensures place { IsPlace nat_cmp (map (λ b. b.number) self.now.own) number result }
        ensures counted { steps.new.taken ≤ steps.old.taken + digits (length self.now.own) }
    {
        self.own.position(number, steps)
    }

    /// Goes over the innermost frame's bindings by their numbers. Takes no memory.
    pub fn bindings(&self) -> Bindings<'_, Bound<'src>>
        ensures all { map bound_of result ≡ self.now.own }
        ensures sorted { ByNumber self.now.own }
    {
        self.own.bindings()
    }

    /// The frames around the innermost one, innermost first. Takes no memory.
    pub fn outer(&self) -> &[&'outer Frame<'src>]
        ensures { map (λ f. f.now) result.now ≡ self.now.outer }
    {
        self.outer.as_slice()
    }
}

/// The binding of a constant.
fn constant<'src>(
    alloc: Global,
    number: Number,
    name: &'static str,
    text: &str,
) -> Result<Bound<'src>, AllocError>
    ensures { IfOk result (λ b. bound_of b ≡ constant_binding number (name.now, text.now)) }
{
    let Ok(length) = u32::try_from(name.len()) else {
        return Err(AllocError);
    };
    let token = Token {
        column: 0,
        kind: TokenKind::Identifier,
        length,
        line: 0,
        offset: 0,
        path: "PRELUDE",
        src: name,
    };
    Ok(Bound {
        export: false,
        name: Name::from_token(token),
        number,
        prelude: true,
        value: Value::from_text(alloc, text)?,
    })
}
