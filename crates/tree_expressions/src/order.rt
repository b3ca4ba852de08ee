//! The order of expressions: by their forms, by what they hold beside other expressions, and then by the
//! expressions inside.
ghost use Rattle.std.specs.Prelude.{◌≡◌, ◌<◌, map};
ghost use Rattle.std.specs.Option.{option_map};
ghost use Rattle.tree_expressions.specs.Order as spec;
ghost use Rattle.tree_expressions.specs.Order.{key_cmp, key_of, own_in};
ghost use Rattle.tree_expressions.specs.declared.expression.Expression.{size-Expression};
ghost use Rattle.tree_expressions.specs.declared.expression.Expression.TheShapes.{weighed-Expression-FormatString-1-at-2};
ghost use denote.Param.Weighed.{most};

use crate::expression::Expression;
use crate::string_kind::StringKind;
use crate::string_literal::StringLiteral;
use just_text::{Number, Token};
use std::cmp::Ordering;

impl PartialEq for Expression<'_> {
    ghost use Rattle.std.specs.Cmp.{partial_equiv_from_equiv, eq_by_cmp_equiv};
    ghost use Rattle.std.specs.Ordering.{eq_by_cmp};
    ghost use Rattle.tree_expressions.specs.Order.{expression_cmp, expression_total};

    ghost eq = { eq_by_cmp expression_cmp };

    ghost laws = { partial_equiv_from_equiv (eq_by_cmp_equiv expression_total) };

    fn eq(&self, other: &Self) -> bool {
        self.cmp(other).is_eq()
    }
}

impl Eq for Expression<'_> {
    ghost use Rattle.std.specs.Cmp.{eq_by_cmp_equiv};
    ghost use Rattle.tree_expressions.specs.Order.{expression_total};

    ghost laws = { eq_by_cmp_equiv expression_total };
}

impl PartialOrd for Expression<'_> {
    ghost use Rattle.std.specs.Cmp.{partial_order_from_total};
    ghost use Rattle.std.specs.Ordering.{as_partial_cmp};
    ghost use Rattle.tree_expressions.specs.Order.{expression_cmp, expression_total};

    ghost partial_cmp = { as_partial_cmp expression_cmp };

    ghost laws = { partial_order_from_total expression_total };

    fn partial_cmp(&self, other: &Self) -> Option<Ordering> {
        Some(self.cmp(other))
    }
}

impl Ord for Expression<'_> {
    ghost use Rattle.std.proofs.Common.{refl};
    ghost use Rattle.tree_expressions.specs.Order.{expression_cmp, expression_total};

    ghost cmp = { expression_cmp };

    ghost total = { expression_total };

    ghost matches_partial_cmp = { λ x y. refl };

    ghost matches_eq = { λ x y. refl };

    fn cmp(&self, other: &Self) -> Ordering {
        compare(self, other)
    }
}

/// The place of the expression's form among all forms.
fn rank(expression: &Expression) -> usize
    ensures { result ≡ (own_in (key_of expression.now)).rank }
{
    match expression {
        Expression::And { .. } => 0,
        Expression::Assert { .. } => 1,
        Expression::Backtick { .. } => 2,
        Expression::Call { .. } => 3,
        Expression::Comparison { .. } => 4,
        Expression::Concatenation { .. } => 5,
        Expression::Conditional { .. } => 6,
        Expression::FormatString { .. } => 7,
        Expression::Group { .. } => 8,
        Expression::Join { .. } => 9,
        Expression::List { .. } => 10,
        Expression::ListConcatenation { .. } => 11,
        Expression::Not { .. } => 12,
        Expression::Or { .. } => 13,
        Expression::StringLiteral { .. } => 14,
        Expression::Variable { .. } => 15,
    }
}

/// 1 for yes, and 0 for no.
fn flag(flag: bool) -> usize
    ensures { result ≡ spec.flag flag }
{
    if flag { 1 } else { 0 }
}

/// What tells the form of a string from the others.
fn kind_marks(kind: StringKind) -> [usize; 3]
    ensures { result ≡ spec.kind_marks kind }
{
    let delimiter = kind.delimiter as usize;
    let prefix = kind.prefix as usize;
    [delimiter, prefix, flag(kind.tripled)]
}

/// Which operator a comparison has, or which form a string; zeros for any other form.
fn marks(expression: &Expression) -> [usize; 3]
    ensures { result ≡ (own_in (key_of expression.now)).marks }
{
    match expression {
        Expression::Comparison { operator, .. } => {
            let operator = *operator as usize;
            [operator, 0, 0]
        }
        Expression::FormatString { start, .. } => kind_marks(start.kind),
        Expression::StringLiteral { string_literal } => kind_marks(string_literal.kind),
        _ => [0, 0, 0],
    }
}

/// The number of a variable that has one.
fn number(expression: &Expression) -> Option<Number>
    ensures { result ≡ (own_in (key_of expression.now)).number }
{
    match expression {
        Expression::Variable { number, .. } => *number,
        _ => None,
    }
}

/// The token that the expression itself holds, if it holds one.
fn token<'src>(expression: &Expression<'src>) -> Option<Token<'src>>
    ensures { result ≡ (own_in (key_of expression.now)).token }
{
    match expression {
        Expression::Assert { name, .. }
        | Expression::Call { name, .. }
        | Expression::Variable { name, .. } => Some(name.token),
        Expression::Backtick { token, .. }
        | Expression::Comparison { token, .. }
        | Expression::Concatenation {
            operator: token,
            ..
        }
        | Expression::Join {
            operator: token,
            ..
        }
        | Expression::List { token, .. }
        | Expression::ListConcatenation {
            operator: token,
            ..
        } => Some(*token),
        Expression::FormatString { start, .. } => Some(start.token),
        Expression::StringLiteral { string_literal } => Some(string_literal.token),
        Expression::And { .. }
        | Expression::Conditional { .. }
        | Expression::Group { .. }
        | Expression::Not { .. }
        | Expression::Or { .. } => None,
    }
}

/// What a command or a string stands for; empty for any other form.
fn text<'src, 'e>(expression: &'e Expression<'src>) -> &'e str
    ensures { result.now ≡ (own_in (key_of expression.now)).text }
{
    match expression {
        Expression::Backtick { contents, .. } => contents.as_str(),
        Expression::FormatString { start, .. } => start.cooked.as_str(),
        Expression::StringLiteral { string_literal } => string_literal.cooked.as_str(),
        _ => "",
    }
}

/// By all that the expressions themselves hold.
fn compare_own(here: &Expression, there: &Expression) -> Ordering
    ensures { result ≡ spec.own_cmp (own_in (key_of here.now)) (own_in (key_of there.now)) }
{
    let ranks = rank(here).cmp(&rank(there));
    let marks = marks(here).cmp(&marks(there));
    let numbers = number(here).cmp(&number(there));
    let tokens = token(here).cmp(&token(there));
    let texts = text(here).cmp(text(there));
    ranks.then(marks).then(numbers).then(tokens).then(texts)
}

/// The first expression inside, if it is no element of a row; a join without a left side has none.
fn first<'src, 'e>(expression: &'e Expression<'src>) -> Option<&'e Expression<'src>>
    ensures key { spec.held_key (option_map (λ e. key_of e.now) result) ≡ spec.first_in (key_of expression.now) }
    ensures smaller { spec.held_size (option_map (λ e. size-Expression e.now) result) < size-Expression expression.now }
{
    match expression {
        Expression::And { lhs, .. }
        | Expression::Comparison { lhs, .. }
        | Expression::Concatenation { lhs, .. }
        | Expression::Join { lhs: Some(lhs), .. }
        | Expression::ListConcatenation { lhs, .. }
        | Expression::Or { lhs, .. } => Some(lhs),
        Expression::Assert { condition, .. } | Expression::Conditional { condition, .. } => {
            Some(condition)
        }
        Expression::Group { contents } => Some(contents),
        Expression::Not { operand } => Some(operand),
        _ => None,
    }
}

/// The second one, if there is one and it is no element of a row.
fn second<'src, 'e>(expression: &'e Expression<'src>) -> Option<&'e Expression<'src>>
    ensures key { spec.held_key (option_map (λ e. key_of e.now) result) ≡ spec.second_in (key_of expression.now) }
    ensures smaller { spec.held_size (option_map (λ e. size-Expression e.now) result) < size-Expression expression.now }
{
    match expression {
        Expression::And { rhs, .. }
        | Expression::Comparison { rhs, .. }
        | Expression::Concatenation { rhs, .. }
        | Expression::Join { rhs, .. }
        | Expression::ListConcatenation { rhs, .. }
        | Expression::Or { rhs, .. } => Some(rhs),
        Expression::Assert {
            message: Some(message),
            ..
        } => Some(message),
        Expression::Conditional { then, .. } => Some(then),
        _ => None,
    }
}

/// What a conditional with both cases gives in the other one.
fn third<'src, 'e>(expression: &'e Expression<'src>) -> Option<&'e Expression<'src>>
    ensures key { spec.held_key (option_map (λ e. key_of e.now) result) ≡ spec.third_in (key_of expression.now) }
    ensures smaller { spec.held_size (option_map (λ e. size-Expression e.now) result) < size-Expression expression.now }
{
    match expression {
        Expression::Conditional {
            otherwise: Some(otherwise),
            ..
        } => Some(otherwise),
        _ => None,
    }
}

/// The arguments of a call or the elements of a list; none for any other form.
fn row<'src, 'e>(expression: &'e Expression<'src>) -> &'e [Expression<'src>]
    ensures key { spec.row_key (map key_of result.now) ≡ spec.row_in (key_of expression.now) }
    ensures smaller { most size-Expression result.now < size-Expression expression.now }
{
    match expression {
        Expression::Call { arguments, .. } => arguments,
        Expression::List { elements, .. } => elements,
        _ => &[],
    }
}

/// The interpolations of a format string; none for any other form.
fn parts<'src, 'e>(
    expression: &'e Expression<'src>,
) -> &'e [(Expression<'src>, StringLiteral<'src>)]
    ensures key { spec.parts_key (map (λ e. (key_of e.0, e.1)) result.now) ≡ spec.parts_in (key_of expression.now) }
    ensures smaller { most (λ x. weighed-Expression-FormatString-1-at-2.weight _ size-Expression x) result.now < size-Expression expression.now }
{
    match expression {
        Expression::FormatString { expressions, .. } => expressions,
        _ => &[],
    }
}

/// Two expressions.
#[cycle(compare)]
fn compare(here: &Expression, there: &Expression) -> Ordering
    ensures { result ≡ key_cmp (key_of here.now) (key_of there.now) }
{
    match compare_own(here, there) {
        Ordering::Equal => compare_inside(here, there),
        unequal => unequal,
    }
}

/// By the expressions inside.
#[cycle(compare)]
fn compare_inside(here: &Expression, there: &Expression) -> Ordering
    ensures { result ≡ spec.inside_cmp (key_of here.now) (key_of there.now) }
{
    let firsts = compare_held(first(here), first(there));
    let seconds = compare_held(second(here), second(there));
    let thirds = compare_held(third(here), third(there));
    let rows = compare_rows(row(here), row(there));
    let parts = compare_parts(parts(here), parts(there));
    firsts.then(seconds.then(thirds.then(rows.then(parts))))
}

/// Two expressions that may be missing; the one that is missing comes first.
#[cycle(compare)]
fn compare_held(here: Option<&Expression>, there: Option<&Expression>) -> Ordering
    ensures { result ≡ key_cmp (spec.held_key (option_map (λ e. key_of e.now) here.entry)) (spec.held_key (option_map (λ e. key_of e.now) there.entry)) }
{
    match (here, there) {
        (None, None) => Ordering::Equal,
        (None, Some(_)) => Ordering::Less,
        (Some(_), None) => Ordering::Greater,
        (Some(here), Some(there)) => compare(here, there),
    }
}

/// Two rows, element by element; the one that ends first comes first.
#[cycle(compare)]
fn compare_rows(here: &[Expression], there: &[Expression]) -> Ordering
    ensures { result ≡ key_cmp (spec.row_key (map key_of here.now)) (spec.row_key (map key_of there.now)) }
{
    for index in 0..here.len() {
        let Some(other) = there.get(index) else {
            return Ordering::Greater;
        };
        match compare(&here[index], other) {
            Ordering::Equal => {}
            unequal => return unequal,
        }
    }
    if here.len() < there.len() {
        Ordering::Less
    } else {
        Ordering::Equal
    }
}

/// By the forms, places and texts of strings.
fn compare_literals(here: &StringLiteral, there: &StringLiteral) -> Ordering
    ensures { result ≡ spec.own_cmp (spec.at_literal 0 here.now) (spec.at_literal 0 there.now) }
{
    let marks = kind_marks(here.kind).cmp(&kind_marks(there.kind));
    let tokens = here.token.cmp(&there.token);
    marks.then(tokens).then(here.cooked.cmp(&there.cooked))
}

/// An interpolation and the part after it.
#[cycle(compare)]
fn compare_part(here: &(Expression, StringLiteral), there: &(Expression, StringLiteral)) -> Ordering
    ensures { result ≡ key_cmp (spec.part_key (key_of here.now.0, here.now.1)) (spec.part_key (key_of there.now.0, there.now.1)) }
{
    match compare(&here.0, &there.0) {
        Ordering::Equal => compare_literals(&here.1, &there.1),
        unequal => unequal,
    }
}

/// Two rows of interpolations, each with the part after it; the one that ends first comes first.
#[cycle(compare)]
fn compare_parts(
    here: &[(Expression, StringLiteral)],
    there: &[(Expression, StringLiteral)],
) -> Ordering
    ensures { result ≡ key_cmp (spec.parts_key (map (λ e. (key_of e.0, e.1)) here.now)) (spec.parts_key (map (λ e. (key_of e.0, e.1)) there.now)) }
{
    for index in 0..here.len() {
        let Some(other) = there.get(index) else {
            return Ordering::Greater;
        };
        match compare_part(&here[index], other) {
            Ordering::Equal => {}
            unequal => return unequal,
        }
    }
    if here.len() < there.len() {
        Ordering::Less
    } else {
        Ordering::Equal
    }
}
