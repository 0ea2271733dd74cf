// Faults of tables and of fit. Each layer carries a fault of the layer below whole.
ghost use Rattle.std.specs.Prelude.{◌≡◌};
ghost use Rattle.faults.specs.declared.layers.FitFault.TheVariants.{Tables};
ghost use Rattle.faults.specs.declared.layers.TableFault.TheVariants.{Fields};

use fields::faults::FieldFault;
use fields::spot::Spot;

#[derive(Clone, Copy)]
pub enum TableFault {
    Fields(FieldFault),
    WrongNext(Spot),
}

#[derive(Clone, Copy)]
pub enum FitFault {
    Tables(TableFault),
    NotInVenue(Spot),
    AboveCapacity(Spot),
}

// Written out, so that clauses can name the wrapped fault.
impl From<FieldFault> for TableFault {
    ghost from_gives = { λ e r. r ≡ Fields e };

    fn from(fault: FieldFault) -> TableFault {
        TableFault::Fields(fault)
    }
}

impl From<TableFault> for FitFault {
    ghost from_gives = { λ e r. r ≡ Tables e };

    fn from(fault: TableFault) -> FitFault {
        FitFault::Tables(fault)
    }
}
