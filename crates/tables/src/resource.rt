// Something of which the venue has a limited amount: a lane, a lift, litres of a pump, crew.
#[derive(Clone, Copy)]
pub struct Resource {
    pub capacity: u16,
    pub order: u8,
    pub name: [u8; 8],
}
