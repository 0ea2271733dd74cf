// A route: the positions from `first` on, `count` of them.
#[derive(Clone, Copy)]
pub struct Route {
    pub first: u16,
    pub count: u16,
}
