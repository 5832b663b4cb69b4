// Lists of a few items, held in fixed places, so that nothing fails for want of memory.
#![tactic(auto)]

ghost use Rattle.std.specs.Prelude.{◌≡◌, ◌+◌, ◌<◌, ◌≤◌, ◌↔◌, [], ◌∷◌, ◌++◌, length, IsOk, OnOk, OnErr};
ghost use Rattle.few.specs.Items.{items};

mod held;

pub use held::Few;

// A list has no place for one item more.
#[derive(Clone, Copy, Debug, PartialEq, Eq)]
pub struct Full;

impl<T: Copy, const N: usize> Few<T, N> {
    // No items; the places are filled with a blank.
    pub fn new(blank: T) -> Few<T, N>
        ensures { items result ≡ [] }
    {
        Few {
            places: [blank; N],
            count: 0,
        }
    }

    pub fn as_slice(&self) -> &[T]
        ensures value { result.now ≡ items self.now }
        ensures few { length result.now ≤ N }
    {
        &self.places[..self.count]
    }

    // One item more, behind the others; where there is no place, nothing changes.
    pub fn push(&mut self, item: T) -> Result<(), Full>
        ensures room { IsOk result ↔ (length (items self.old) < N) }
        ensures ok { OnOk result (items self.new ≡ items self.old ++ item ∷ []) }
        ensures err { OnErr result (self.new ≡ self.old) }
    {
        if self.count >= N {
            return Err(Full);
        }
        self.places[self.count] = item;
        self.count += 1;
        Ok(())
    }

    // More items behind the others; where there are not places for all, nothing changes.
    pub fn extend(&mut self, more: &[T]) -> Result<(), Full>
        ensures room { IsOk result ↔ (length (items self.old) + length more.now ≤ N) }
        ensures ok { OnOk result (items self.new ≡ items self.old ++ more.now) }
        ensures err { OnErr result (self.new ≡ self.old) }
    {
        if N - self.count < more.len() {
            return Err(Full);
        }
        let end = self.count + more.len();
        let places = &mut self.places[..];
        places[self.count..end].copy_from_slice(more);
        self.count = end;
        Ok(())
    }

    pub fn len(&self) -> usize
        ensures value { result ≡ length (items self.now) }
        ensures few { result ≤ N }
    {
        self.as_slice().len()
    }
}
