// A claim on a resource, with the position that sets it.
#[derive(Clone, Copy)]
pub struct Claim {
    pub amount: u16,
    pub position: u16,
}

// The figures of one resource, by position: the claims on it, and the peak needs of it along the ways home. Two rows, since each is filled by the scan and a sheet copies one.
#[derive(Clone, Copy)]
pub struct ResourceFigures {
    pub claims: [Claim; 128],
    pub peaks: [u16; 128],
}
