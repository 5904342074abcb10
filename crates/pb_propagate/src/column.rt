//! A list of values, most of which are zero. It stores only the pages that were written.

ghost use Rattle.std.specs.Prelude.{◌≡◌, ℕ, ◌+◌, ◌-◌, ◌*◌, ◌/◌, ◌^◌, ◌<◌, ◌≤◌, ◌++◌, ◌∷◌, [], length, replicate, take, slice_index_or, slice_set, vec_capacity, IfOk, OnOk, OnErr, IfSome, IfNone, true, false};
ghost use Rattle.pb_propagate.specs.engine.Columns.{nowhere, start_of, value_at, values_of, ArePages};

use std::alloc::{AllocError, Global};
use std::marker::Model;

// How many values a page has.
const PAGE: usize = 64;

// The start of a page that is not stored.
const NOWHERE: usize = usize::MAX;

/// A type of values, one of which is that of all positions that were not written.
pub trait Zero: Drop {
    ghost zero: { Self };

    /// That value.
    fn zero() -> Self
        ensures { result ≡ zero };

    /// Whether it is that value.
    fn is_zero(&self) -> bool
        ensures yes { result ≡ true → self.now ≡ zero }
        ensures no { result ≡ false → self.now ≡ zero → ⊥ };
}

impl Zero for u128 {
    ghost zero = { 0 };

    #[inline]
    fn zero() -> u128 {
        0
    }

    #[inline]
    fn is_zero(&self) -> bool {
        *self == 0
    }
}

impl Zero for u32 {
    ghost zero = { 0 };

    #[inline]
    fn zero() -> u32 {
        0
    }

    #[inline]
    fn is_zero(&self) -> bool {
        *self == 0
    }
}

impl Zero for usize {
    ghost zero = { 0 };

    #[inline]
    fn zero() -> usize {
        0
    }

    #[inline]
    fn is_zero(&self) -> bool {
        *self == 0
    }
}

/// A list of values, most of which are zero. A page that was never written takes no memory. A
/// value is set without an allocation, since memory is reserved when the list grows.
#[derive(Drop)]
pub struct Column<T: Zero> {
    // Where the page of each 64 values begins among the items, or NOWHERE.
    pages: Vec<usize>,
    // The pages that are stored. There is memory for all of them.
    items: Vec<T>,
    // How many values the list has.
    count: usize,
}

impl<T: Zero> Model for Column<T> {
    ghost use Rattle.std.specs.Prelude.{List, ◌≤◌, ◌*◌, length, vec_capacity};
    ghost use Rattle.pb_propagate.specs.engine.Columns.{values_of, AreEmptyFrom, ArePages};

    ghost Value = { List T };

    ghost view = { λ c. values_of T.zero c.pages.items c.items.items c.count };

    ghost invariant = { λ c. ArePages c.pages.items (length c.items.items)
        (vec_capacity c.items) × (c.count ≤ 64 * length c.pages.items) ×
        AreEmptyFrom T.zero c.pages.items c.items.items c.count };
}

// Appends the items of a page, all zero.
fn fill<T: Zero>(items: &mut Vec<T>)
    requires memory { length items.old.items + 64 ≤ vec_capacity items.old }
    ensures items { items.new.items ≡ items.old.items ++ replicate 64 T.zero }
    ensures memory { vec_capacity items.new ≡ vec_capacity items.old }
{
    'items: for _ in 0..PAGE {
        items.push_reserved(T::zero());
    }
}

// Writes a value of a page that is not stored, and so stores it, unless the value is zero.
#[inline(never)]
fn store<T: Zero>(pages: &mut Vec<usize>, items: &mut Vec<T>, index: usize, value: T)
    requires inside { index < 64 * length pages.old.items }
    requires absent { start_of pages.old.items (index / 64) ≡ nowhere }
    requires pages { ArePages pages.old.items (length items.old.items) (vec_capacity items.old) }
    ensures pages { ArePages pages.new.items (length items.new.items) (vec_capacity items.new) }
    ensures length { length pages.new.items ≡ length pages.old.items }
    ensures values { (n : ℕ) → index < n →
        values_of T.zero pages.new.items items.new.items n ≡
        slice_set (values_of T.zero pages.old.items items.old.items n) index value }
{
    if value.is_zero() {
        return;
    }
    let start = items.len();
    fill(items);
    pages[index / PAGE] = start;
    items[start + index % PAGE] = value;
}

// Writes a value.
#[inline]
fn write<T: Zero>(pages: &mut Vec<usize>, items: &mut Vec<T>, index: usize, value: T)
    requires inside { index < 64 * length pages.old.items }
    requires pages { ArePages pages.old.items (length items.old.items) (vec_capacity items.old) }
    ensures pages { ArePages pages.new.items (length items.new.items) (vec_capacity items.new) }
    ensures length { length pages.new.items ≡ length pages.old.items }
    ensures values { (n : ℕ) → index < n →
        values_of T.zero pages.new.items items.new.items n ≡
        slice_set (values_of T.zero pages.old.items items.old.items n) index value }
{
    let start = pages[index / PAGE];
    if start == NOWHERE {
        return store(pages, items, index, value);
    }
    items[start + index % PAGE] = value;
}

// Makes a value zero, and returns what it was.
#[inline]
fn clear<T: Zero>(pages: &[usize], items: &mut Vec<T>, index: usize) -> T
    requires inside { index < 64 * length pages.now }
    requires pages { ArePages pages.now (length items.old.items) (vec_capacity items.old) }
    ensures was { result ≡ value_at T.zero pages.now items.old.items index }
    ensures pages { ArePages pages.now (length items.new.items) (vec_capacity items.new) }
    ensures values { (n : ℕ) → index < n →
        values_of T.zero pages.now items.new.items n ≡
        slice_set (values_of T.zero pages.now items.old.items n) index T.zero }
{
    let start = pages[index / PAGE];
    if start == NOWHERE {
        return T::zero();
    }
    std::mem::replace(&mut items[start + index % PAGE], T::zero())
}

// Adds a page that is not stored, and reserves memory for it.
#[inline(never)]
fn add_page<T: Zero>(pages: &mut Vec<usize>, items: &mut Vec<T>) -> Result<(), AllocError>
    requires pages { ArePages pages.old.items (length items.old.items) (vec_capacity items.old) }
    ensures pages { ArePages pages.new.items (length items.new.items) (vec_capacity items.new) }
    ensures ok { OnOk result (length pages.new.items ≡ length pages.old.items + 1) }
    ensures err { OnErr result (pages.new.items ≡ pages.old.items) }
    ensures values { (n : ℕ) → values_of T.zero pages.new.items items.new.items n ≡
        values_of T.zero pages.old.items items.old.items n }
{
    if pages.len() >= usize::MAX / PAGE {
        return Err(AllocError);
    }
    let needed = PAGE * (pages.len() + 1);
    items.reserve(needed.saturating_sub(items.len()))?;
    pages.push(NOWHERE)?;
    Ok(())
}

// Adds a page if there is none for one more value.
#[inline]
fn reach<T: Zero>(
    pages: &mut Vec<usize>,
    items: &mut Vec<T>,
    count: usize,
) -> Result<(), AllocError>
    requires inside { count ≤ 64 * length pages.old.items }
    requires pages { ArePages pages.old.items (length items.old.items) (vec_capacity items.old) }
    ensures pages { ArePages pages.new.items (length items.new.items) (vec_capacity items.new) }
    ensures ok { OnOk result (count < 64 * length pages.new.items) }
    ensures err { OnErr result (count ≤ 64 * length pages.new.items) }
    ensures values { (n : ℕ) → values_of T.zero pages.new.items items.new.items n ≡
        values_of T.zero pages.old.items items.old.items n }
{
    if count / PAGE < pages.len() {
        return Ok(());
    }
    add_page(pages, items)
}

impl<T: Zero> Column<T> {
    /// No value.
    pub fn new(alloc: Global) -> Self
        ensures { result ≡ [] }
    {
        Column {
            pages: Vec::new(alloc),
            items: Vec::new(alloc),
            count: 0,
        }
    }

    /// No value, with memory reserved for this many.
    pub fn with_capacity(alloc: Global, count: usize) -> Result<Self, AllocError>
        ensures { IfOk result (λ c. c ≡ []) }
    {
        let needed = count.div_ceil(PAGE);
        let pages = Vec::with_capacity(alloc, needed)?;
        let items = Vec::with_capacity(alloc, needed.saturating_mul(PAGE))?;
        Ok(Column {
            pages,
            items,
            count: 0,
        })
    }

    /// How many values there are.
    pub fn len(&self) -> usize
        ensures is { result ≡ length self.now }
        ensures small { result < 2 ^ 63 }
    {
        self.count
    }

    /// A value, unless its page is not stored: then it is zero.
    pub fn peek(&self, index: usize) -> Option<&T>
        requires { index < length self.now }
        ensures some { IfSome result (λ r. (d : T) → r.now ≡ slice_index_or self.now index d) }
        ensures none { IfNone result ((d : T) → T.zero ≡ slice_index_or self.now index d) }
    {
        let start = self.pages[index / PAGE];
        if start == NOWHERE {
            return None;
        }
        Some(&self.items[start + index % PAGE])
    }

    /// Takes a value out, which is then zero.
    pub fn take(&mut self, index: usize) -> T
        requires { index < length self.old }
        ensures was { (d : T) → result ≡ slice_index_or self.old index d }
        ensures zero { self.new ≡ slice_set self.old index T.zero }
    {
        clear(self.pages.as_slice(), &mut self.items, index)
    }

    /// Writes a value. Nothing is allocated.
    #[inline]
    pub fn set(&mut self, index: usize, value: T)
        requires { index < length self.old }
        ensures { self.new ≡ slice_set self.old index value }
    {
        write(&mut self.pages, &mut self.items, index, value);
    }

    /// Makes a value zero. No page is stored for it.
    pub fn set_empty(&mut self, index: usize)
        requires { index < length self.old }
        ensures { self.new ≡ slice_set self.old index T.zero }
    {
        clear(self.pages.as_slice(), &mut self.items, index);
    }

    /// Appends a zero. No page is stored for it.
    #[inline]
    pub fn push_empty(&mut self) -> Result<(), AllocError>
        ensures ok { OnOk result (self.new ≡ self.old ++ T.zero ∷ []) }
        ensures err { OnErr result (self.new ≡ self.old) }
    {
        reach(&mut self.pages, &mut self.items, self.count)?;
        self.count += 1;
        Ok(())
    }

    /// Removes the last value, if there is one.
    pub fn pop(&mut self)
        ensures { self.new ≡ take (length self.old - 1) self.old }
    {
        if self.count == 0 {
            return;
        }
        self.count -= 1;
        clear(self.pages.as_slice(), &mut self.items, self.count);
    }
}

impl<T: Zero + Copy> Column<T> {
    /// A value.
    #[inline]
    pub fn get(&self, index: usize) -> T
        requires { index < length self.now }
        ensures { (d : T) → result ≡ slice_index_or self.now index d }
    {
        let start = self.pages[index / PAGE];
        if start == NOWHERE {
            return T::zero();
        }
        self.items[start + index % PAGE]
    }
}
