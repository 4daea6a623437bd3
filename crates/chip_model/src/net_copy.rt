use mesh_gen::{Ports, Request};

/// A copy of a request in a channel of a router, with the ports by which it still has to leave.
#[derive(Clone, Copy, Debug)]
pub struct NetCopy {
    pub request: Request,
    pub owed: Ports,
}
