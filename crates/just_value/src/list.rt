//! Items in a row, as sentences have them.
ghost use Rattle.std.specs.Prelude.{◌≡◌, ◌++◌, Some, codes, map};
ghost use Rattle.std.specs.Fmt.{WritesOnOk, decimal};
ghost use Rattle.just_value.specs.Lists.{enclosed, list_text};

use just_text::Text;
use std::fmt;
use std::marker::PhantomData;

/// What can stand in a list: it prints one text.
pub trait Listed {
    ghost use Rattle.std.specs.Prelude.{List, ℕ};

    ghost text: { Self → List ℕ };

    /// Writes the text.
    fn write_text<W: fmt::Write>(&self, f: &mut fmt::Formatter<W>) -> fmt::Result
        ensures { WritesOnOk W.write_str_gives f.old result (text self.now) f.new };
}

/// Items that are borrowed, and the mark on both sides of each.
pub trait Items<T> {
    ghost use Rattle.std.specs.Prelude.{List, ℕ};

    ghost items: { Self → List T };

    ghost mark: { Self → List ℕ };

    fn as_items(&self) -> &[T]
        ensures { result.now ≡ items self.now };

    fn mark(&self) -> &'static str
        ensures { result.now ≡ mark self.now };
}

/// Items each between backticks.
#[derive(Clone, Copy)]
pub struct Ticked<I>(pub I);

/// An item with a mark on both sides.
#[derive(Clone, Copy)]
pub struct Enclosure<'a, T> {
    pub mark: &'static str,
    pub item: &'a T,
}

/// Items in a row: nothing for none, one alone, two with the conjunction between, and of more each
/// but the last with a comma after it and the last after the conjunction.
#[derive(Drop)]
pub struct List<T, I> {
    conjunction: &'static str,
    items: I,
    listed: PhantomData<T>,
}

impl<T: Listed, I: Items<T>> List<T, I> {
    /// With this conjunction.
    fn of(conjunction: &'static str, items: I) -> List<T, I>
        ensures conjunction { result.conjunction.now ≡ conjunction.now }
        ensures items { result.items ≡ items }
    {
        List {
            conjunction,
            items,
            listed: PhantomData,
        }
    }

    /// Prints the items with `or`.
    pub fn or(items: I) -> List<T, I>
        ensures conjunction { result.conjunction.now ≡ codes "or" }
        ensures items { result.items ≡ items }
    {
        List::of("or", items)
    }

    /// Prints the items with `and`.
    pub fn and(items: I) -> List<T, I>
        ensures conjunction { result.conjunction.now ≡ codes "and" }
        ensures items { result.items ≡ items }
    {
        List::of("and", items)
    }

    /// Prints the items, each between backticks, with `or`.
    pub fn or_ticked(items: I) -> List<T, Ticked<I>>
        ensures conjunction { result.conjunction.now ≡ codes "or" }
        ensures items { result.items.0 ≡ items }
    {
        List::of("or", Ticked(items))
    }

    /// Prints the items, each between backticks, with `and`.
    pub fn and_ticked(items: I) -> List<T, Ticked<I>>
        ensures conjunction { result.conjunction.now ≡ codes "and" }
        ensures items { result.items.0 ≡ items }
    {
        List::of("and", Ticked(items))
    }
}

impl<'a, T> Items<T> for &'a [T] {
    ghost items = { λ s. s.now };

    ghost mark = { λ _. codes "" };

    fn as_items(&self) -> &[T] {
        *self
    }

    fn mark(&self) -> &'static str {
        ""
    }
}

impl<T, I: Items<T>> Items<T> for Ticked<I> {
    ghost items = { λ ticked. I.items ticked.0 };

    ghost mark = { λ _. codes "`" };

    fn as_items(&self) -> &[T] {
        self.0.as_items()
    }

    fn mark(&self) -> &'static str {
        "`"
    }
}

impl<T: Listed> fmt::Display for Enclosure<'_, T> {
    ghost output = { λ e. Some (enclosed e.mark.now (T.text e.item.now)) };

    fn fmt<W: fmt::Write>(&self, f: &mut fmt::Formatter<W>) -> fmt::Result {
        f.write_str(self.mark)?;
        self.item.write_text(f)?;
        f.write_str(self.mark)
    }
}

impl<T: Listed, I: Items<T>> fmt::Display for List<T, I> {
    ghost output = { λ list. Some (list_text list.conjunction.now (map (λ item. enclosed (I.mark list.items) (T.text item)) (I.items list.items))) };

    fn fmt<W: fmt::Write>(&self, f: &mut fmt::Formatter<W>) -> fmt::Result {
        let row = Row {
            conjunction: self.conjunction,
            mark: self.items.mark(),
            items: self.items.as_items(),
        };
        write!(f, "{row}")
    }
}

/// The items and the words around them.
#[derive(Clone, Copy)]
struct Row<'a, T> {
    conjunction: &'static str,
    mark: &'static str,
    items: &'a [T],
}

impl<T: Listed> fmt::Display for Row<'_, T> {
    ghost output = { λ row. Some (list_text row.conjunction.now (map (λ item. enclosed row.mark.now (T.text item)) row.items.now)) };

    fn fmt<W: fmt::Write>(&self, f: &mut fmt::Formatter<W>) -> fmt::Result {
        let mark = self.mark;
        let items = self.items;
        let conjunction = self.conjunction;
        let Some((last, others)) = items.split_last() else {
            return Ok(());
        };
        let last = Enclosure { mark, item: last };
        if others.is_empty() {
            return write!(f, "{last}");
        }
        if others.len() == 1 {
            let first = Enclosure {
                mark,
                item: &others[0],
            };
            return write!(f, "{first} {conjunction} {last}");
        }
        for item in others {
            let item = Enclosure { mark, item };
            write!(f, "{item}, ")?;
        }
        write!(f, "{conjunction} {last}")
    }
}

impl Listed for u64 {
    ghost text = { λ n. decimal n };

    fn write_text<W: fmt::Write>(&self, f: &mut fmt::Formatter<W>) -> fmt::Result {
        let number = *self;
        write!(f, "{number}")
    }
}

impl Listed for Text {
    ghost text = { λ t. t };

    fn write_text<W: fmt::Write>(&self, f: &mut fmt::Formatter<W>) -> fmt::Result {
        f.write_str(self.as_str())
    }
}

impl<'a> Listed for &'a str {
    ghost text = { λ t. t.now };

    fn write_text<W: fmt::Write>(&self, f: &mut fmt::Formatter<W>) -> fmt::Result {
        f.write_str(*self)
    }
}
