ghost use Rattle.std.specs.Prelude.{◌≡◌, ◌≤◌, vec_len, vec_capacity};

use crate::position::Position;
use crate::resource::Resource;
use crate::route::Route;

// Memory for the largest venue file.
#[derive(Drop)]
pub struct VenueReserve {
    pub resources: Vec<Resource>,
    ghost resources_empty: { vec_len resources ≡ 0 },
    ghost resources_room: { 16 ≤ vec_capacity resources },
}

// Memory for the largest show file.
#[derive(Drop)]
pub struct ShowReserve {
    pub routes: Vec<Route>,
    pub positions: Vec<Position>,
    ghost routes_empty: { vec_len routes ≡ 0 },
    ghost positions_empty: { vec_len positions ≡ 0 },
    ghost routes_room: { 16 ≤ vec_capacity routes },
    ghost positions_room: { 128 ≤ vec_capacity positions },
}

// Memory for the largest pair of files, taken before anything is read.
#[derive(Drop)]
pub struct Reserve {
    pub venue: VenueReserve,
    pub show: ShowReserve,
}
