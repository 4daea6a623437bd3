use mesh_gen::Port;

/// A channel of a router, by its port and its slot there.
#[derive(Clone, Copy, Debug, PartialEq, Eq)]
pub struct Channel {
    pub router: u8,
    pub port: Port,
    pub slot: u8,
}
