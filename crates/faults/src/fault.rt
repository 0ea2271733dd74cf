// What a fault says: the refusal, the layer that raised it, and where.
ghost use Rattle.std.specs.Prelude.{◌≡◌};
ghost use Rattle.faults.specs.Faults.{byte_entry, field_entry, table_entry, entry, refusal_of, layer_of, spot_of, layer_number, number_of_file};

use crate::layers::{FitFault, TableFault};
use fields::faults::{ByteFault, FieldFault};
use fields::spot::{File, Spot};
use refusals::Refusal;

#[derive(Clone, Copy)]
pub enum Layer {
    Bytes = 1,
    Fields = 2,
    Tables = 3,
    Fit = 4,
}

impl From<Layer> for u8 {
    ghost from_gives = { λ layer n. n ≡ layer_number layer };

    fn from(layer: Layer) -> u8 {
        layer as u8
    }
}

// 1 for the venue file, 2 for the show file. In a header the same two have another number each, so neither is their one number.
pub fn file_number(file: File) -> u8
    ensures { result ≡ number_of_file file }
{
    match file {
        File::Venue => 1,
        File::Show => 2,
    }
}

// What a fault of each layer says; a fault of the layer below says it for itself.
type Saying = (Refusal, Layer, Spot);

fn of_bytes(fault: ByteFault) -> Saying
    ensures { result ≡ byte_entry fault }
{
    match fault {
        ByteFault::HeadCut(s) => (Refusal::HeadCut, Layer::Bytes, s),
        ByteFault::BodyCut(s) => (Refusal::BodyCut, Layer::Bytes, s),
        ByteFault::AfterEnd(s) => (Refusal::AfterEnd, Layer::Bytes, s),
    }
}

fn of_fields(fault: FieldFault) -> Saying
    ensures { result ≡ field_entry fault }
{
    match fault {
        FieldFault::Bytes(e) => of_bytes(e),
        FieldFault::UnfamiliarTag(s) => (Refusal::UnfamiliarTag, Layer::Fields, s),
        FieldFault::OutOfTurn(s) => (Refusal::OutOfTurn, Layer::Fields, s),
        FieldFault::WrongLength(s) => (Refusal::WrongLength, Layer::Fields, s),
        FieldFault::OutOfRange(s) => (Refusal::OutOfRange, Layer::Fields, s),
        FieldFault::TooMany(s) => (Refusal::TooMany, Layer::Fields, s),
    }
}

fn of_tables(fault: TableFault) -> Saying
    ensures { result ≡ table_entry fault }
{
    match fault {
        TableFault::Fields(e) => of_fields(e),
        TableFault::WrongNext(s) => (Refusal::WrongNext, Layer::Tables, s),
    }
}

impl FitFault {
    fn saying(self) -> Saying
        ensures { result ≡ entry self }
    {
        match self {
            FitFault::Tables(e) => of_tables(e),
            FitFault::NotInVenue(s) => (Refusal::NotInVenue, Layer::Fit, s),
            FitFault::AboveCapacity(s) => (Refusal::AboveCapacity, Layer::Fit, s),
        }
    }

    pub fn refusal(self) -> Refusal
        ensures { result ≡ refusal_of self }
    {
        self.saying().0
    }

    pub fn layer(self) -> Layer
        ensures { result ≡ layer_of self }
    {
        self.saying().1
    }

    pub fn spot(self) -> Spot
        ensures { result ≡ spot_of self }
    {
        self.saying().2
    }
}
