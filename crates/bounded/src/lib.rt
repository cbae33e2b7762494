// A list of at most N items that lives in place: for tables that have a stated limit and must not want memory.
#![tactic(auto)]

ghost use Rattle.std.specs.Prelude.{◌≡◌, ◌+◌, ◌<◌, ◌≤◌, [], ◌∷◌, ◌++◌, length, MatchResult};

use std::marker::Model;

// What is said where a list has no room for all that should go behind it.
#[derive(Clone, Copy, PartialEq, Eq, Debug)]
pub struct Full;

// The first `len` of `items` are the list; what stands behind them means nothing. No `Vec`, since the library has no heap.
#[derive(Drop)]
pub struct Bounded<T: Copy, const N: usize> {
    items: [T; N],
    len: usize,
}

// Clauses see the list.
impl<T: Copy, const N: usize> Model for Bounded<T, N> {
    ghost use Rattle.std.specs.Prelude.{◌≡◌, ◌≤◌, List, take, length};

    ghost Value = { List T };

    ghost view = { λ b. take b.len b.items };

    ghost invariant = { λ b. (length b.items ≡ N) × (b.len ≤ N) };
}

impl<T: Copy, const N: usize> Bounded<T, N> {
    // The empty list; `filler` stands in the places that hold no item yet.
    pub fn new(filler: T) -> Bounded<T, N>
        ensures { result ≡ [] }
    {
        Bounded {
            items: [filler; N],
            len: 0,
        }
    }

    pub fn len(&self) -> usize
        ensures is { result ≡ length self.now }
        ensures within { result ≤ N }
    {
        self.len
    }

    pub fn as_slice(&self) -> &[T]
        ensures is { result.now ≡ self.now }
        ensures within { length result.now ≤ N }
    {
        let all = &self.items[..];
        &all[0..self.len]
    }

    // One item more at the end; the item comes back, and nothing changes, where the list is full.
    pub fn push(&mut self, item: T) -> Result<(), T>
        ensures { MatchResult result (λ _. self.new ≡ self.old ++ item ∷ []) (λ back. (back ≡ item) × (self.new ≡ self.old) × (length self.old ≡ N)) }
    {
        let at = self.len;
        if at >= N {
            return Err(item);
        }
        self.items[at] = item;
        self.len = at + 1;
        Ok(())
    }

    // The items behind those of the list, or none of them where there is not room for all.
    pub fn extend_from_slice(&mut self, items: &[T]) -> Result<(), Full>
        ensures { MatchResult result (λ _. self.new ≡ self.old ++ items.now) (λ _. (self.new ≡ self.old) × (N < length self.old + length items.now)) }
    {
        let at = self.len;
        if items.len() > N - at {
            return Err(Full);
        }
        let end = at + items.len();
        let all = &mut self.items[..];
        all[at..end].copy_from_slice(items);
        self.len = end;
        Ok(())
    }
}
