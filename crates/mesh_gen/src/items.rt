ghost use Rattle.std.specs.Prelude.{◌≡◌};

use crate::Request;
use std::marker::Model;

/// A list, as a field of a public struct: contracts see its items and not where they lie in memory.
#[derive(Debug, Drop)]
pub struct Items<T> {
    items: Vec<T>,
}

/// Tiles, by their numbers.
pub type Tiles = Items<u8>;

/// Words of memory, from address 0 on.
pub type Image = Items<u32>;

/// Requests, in an order.
pub type Requests = Items<Request>;

/// Counts, one for each tile.
pub type Counts = Items<u64>;

impl<T> Model for Items<T> {
    ghost use Rattle.std.specs.Prelude.{List};

    ghost Value = { List T };

    ghost view = { λ list. list.items.items };
}

impl<T> Items<T> {
    pub fn new(items: Vec<T>) -> Items<T>
        ensures { result ≡ items.items }
    {
        Items { items }
    }

    pub fn as_slice(&self) -> &[T]
        ensures { result.now ≡ self.now }
    {
        &self.items
    }

    pub fn into_vec(self) -> Vec<T>
        ensures { result.items ≡ self }
    {
        let Items { items } = self;
        items
    }
}
