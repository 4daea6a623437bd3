//! How a copy leaves a router by a side.
ghost use Rattle.std.specs.Prelude.{◌≡◌};
ghost use Rattle.router_xy.specs.Ways.{takes_in};

use crate::copies::expects;
use chip_model::NetCopy;

/// The channel that takes a copy in at the next router.
#[derive(Clone, Copy)]
pub struct Entry {
    pub slot: u8,
    /// Whether it is the reserved one, which takes in the request alone that is expected there.
    pub is_reserved: bool,
}

/// How a copy leaves a router by a side, as far as the next router has a free channel.
#[derive(Clone, Copy)]
pub struct Way {
    /// The copy before it leaves.
    pub copy: NetCopy,
    /// The router on that side.
    pub to: u8,
    /// The channel of that router.
    pub entry: Entry,
}

impl Way {
    /// Whether the channel takes the copy in, where the router expects this request next.
    pub fn is_open(&self, expected: Option<(u8, u32)>) -> bool
        ensures { result ≡ takes_in self.now expected }
    {
        !self.entry.is_reserved || expects(expected, self.copy.request)
    }
}
