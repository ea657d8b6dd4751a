//! Lists that are mostly short.
#![tactic(auto)]

ghost use Rattle.std.specs.Prelude.{◌≡◌, ◌<◌, ◌^◌, ◌↔◌, [], ◌∷◌, ◌++◌, length, slice_index_or, slice_set, IsTrue, IfOk, OnOk, OnErr, IfErr};
ghost use Rattle.std.specs.Iterator.Runs.{EveryRun, ItemsMapTo};
ghost use Rattle.std.specs.Slice.Iter.{iter_rest, iter_steps};

use smallvec::SmallVec;
use std::alloc::{AllocError, AllocFailed, Global};
use std::fmt::{self, Debug, Formatter, Write};
use std::marker::Model;
use std::ops::{DerefSlice, Index};
use std::slice;

/// Elements in order, of which `N` have room in the value itself, so that a short list takes no memory of its own. In a
/// contract it is the list itself.
#[derive(Drop)]
pub struct ShortList<T, const N: usize> {
    items: SmallVec<T, N>,
}

impl<T, const N: usize> Model for ShortList<T, N> {
    ghost use Rattle.std.specs.Prelude.{List as Listed};

    ghost Value = { Listed T };

    ghost view = { λ list. list.items.items };
}

impl<T: Default + Drop, const N: usize> ShortList<T, N> {
    /// The empty list, which takes no memory.
    pub fn new(alloc: Global) -> ShortList<T, N>
        ensures { result ≡ [] }
    {
        ShortList {
            items: SmallVec::new(alloc),
        }
    }

    /// The empty list, with room for some elements.
    pub fn with_capacity(alloc: Global, capacity: usize) -> Result<ShortList<T, N>, AllocError>
        ensures { IfOk result (λ list. list ≡ []) }
    {
        Ok(ShortList {
            items: SmallVec::with_capacity(alloc, capacity)?,
        })
    }

    /// Adds an element at the end. Where no memory is left, the list is as it was and the element comes back.
    pub fn push(&mut self, item: T) -> Result<(), AllocFailed<T>>
        ensures ok { OnOk result (self.new ≡ self.old ++ item ∷ []) }
        ensures err { OnErr result (self.new ≡ self.old) }
        ensures item_returned { IfErr result (λ e. e.value ≡ item) }
    {
        self.items.push(item)
    }
}

impl<T: Default + Copy, const N: usize> ShortList<T, N> {
    pub fn from_slice(alloc: Global, items: &[T]) -> Result<ShortList<T, N>, AllocError>
        ensures { IfOk result (λ list. list ≡ items.now) }
    {
        Ok(ShortList {
            items: SmallVec::from_slice(alloc, items)?,
        })
    }

    /// Puts an element in the place of another.
    pub fn set(&mut self, index: usize, item: T)
        requires { index < length self.old }
        ensures { self.new ≡ slice_set self.old index item }
    {
        self.items.as_mut_slice()[index] = item;
    }
}

impl<T, const N: usize> ShortList<T, N> {
    pub fn as_slice(&self) -> &[T]
        ensures { result.now ≡ self.now }
    {
        self.items.as_slice()
    }

    pub fn len(&self) -> usize
        ensures { result ≡ length self.now }
    {
        self.items.len()
    }

    pub fn is_empty(&self) -> bool
        ensures { IsTrue result ↔ (length self.now ≡ 0) }
    {
        self.items.is_empty()
    }
}

impl<T: Debug, const N: usize> Debug for ShortList<T, N> {
    fn fmt<W: Write>(&self, f: &mut Formatter<W>) -> fmt::Result {
        self.items.as_slice().fmt(f)
    }
}

impl<T, const N: usize> DerefSlice for ShortList<T, N> {
    type Elem = T;

    ghost deref_gives = { λ list items. (items ≡ list) };

    fn deref(&self) -> &[T]
        ensures { result.now ≡ self.now }
    {
        self.items.as_slice()
    }
}

impl<T, const N: usize> Index<usize> for ShortList<T, N> {
    type Output = T;

    ghost can_index = { λ list index. index < length list };

    ghost index_gives = { λ list index item. item ≡ slice_index_or list index item };

    fn index(&self, index: usize) -> &T
        requires { index < length self.now }
        ensures { result.now ≡ slice_index_or self.now index result.now }
    {
        &self.items.as_slice()[index]
    }
}

impl<'a, T, const N: usize> IntoIterator for &'a ShortList<T, N> {
    type Item = &'a T;

    type IntoIter = slice::Iter<'a, T>;

    ghost into_iter_gives = { λ list iter. (iter_rest iter ≡ list.now) × (length (iter_rest iter) < 2 ^ 64)
        × EveryRun (iter_steps {A = T}) (λ run. ItemsMapTo run (λ item. item.now) (iter_rest run.from)) };

    fn into_iter(self) -> slice::Iter<'a, T> {
        self.items.as_slice().iter()
    }
}
