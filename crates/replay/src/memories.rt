// Memories of a fixed size. The reader lets no count and no index through that is out of range; without `min` that would have to be
// proved.

// A lent slice with how many of its items are in use.
#[derive(Drop)]
pub(crate) struct Memory<'a, T> {
    items: &'a mut [T],
    count: usize,
    // From here on every item is zero, so that the memory need not be cleared whole.
    end: usize,
}

impl<'a, T: Copy> Memory<'a, T> {
    // A memory of zeros.
    pub(crate) fn new(items: &'a mut [T]) -> Memory<'a, T> {
        Memory {
            items,
            count: 0,
            end: 0,
        }
    }

    pub(crate) fn count(&self) -> usize {
        self.count
    }

    // Sets how many items are in use. Those behind them are kept.
    pub(crate) fn resize(&mut self, count: usize) {
        self.count = count;
        self.end = self.end.max(count);
    }

    // Stores an item.
    pub(crate) fn store(&mut self, index: usize, item: T) {
        if index < self.items.len() {
            self.items[index] = item;
            self.end = self.end.max(index + 1);
        }
    }

    // How many items can be added.
    pub(crate) fn room(&self) -> usize {
        self.items.len().saturating_sub(self.count)
    }

    // Adds an item. There is room for it: a list of calls that has none is played before the call.
    pub(crate) fn push(&mut self, item: T) {
        if self.count < self.items.len() {
            self.items[self.count] = item;
            self.resize(self.count + 1);
        }
    }

    pub(crate) fn extend(&mut self, items: &[T]) {
        for item in items {
            self.push(*item);
        }
    }

    // The first items, in use or not.
    pub(crate) fn first(&self, count: usize) -> &[T] {
        &self.items[..count.min(self.items.len())]
    }

    // The items in use.
    pub(crate) fn used(&self) -> &[T] {
        self.first(self.count)
    }

    pub(crate) fn used_mut(&mut self) -> &mut [T] {
        let count = self.count.min(self.items.len());
        &mut self.items[..count]
    }
}

impl<T: Copy + Default> Memory<'_, T> {
    // Makes it a memory of zeros again.
    pub(crate) fn clear(&mut self) {
        let end = self.end.min(self.items.len());
        for item in &mut self.items[..end] {
            *item = T::default();
        }
        self.count = 0;
        self.end = 0;
    }
}
