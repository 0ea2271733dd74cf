// What is wrong with a file's bytes, and with its fields. The upper layer carries the lower one's fault whole.
ghost use Rattle.std.specs.Prelude.{◌≡◌};
ghost use Rattle.fields.specs.declared.faults.FieldFault.TheVariants.{Bytes};

use crate::spot::Spot;

#[derive(Clone, Copy)]
pub enum ByteFault {
    HeadCut(Spot),
    BodyCut(Spot),
    AfterEnd(Spot),
}

#[derive(Clone, Copy)]
pub enum FieldFault {
    Bytes(ByteFault),
    UnfamiliarTag(Spot),
    OutOfTurn(Spot),
    WrongLength(Spot),
    OutOfRange(Spot),
    TooMany(Spot),
}

// Written out, so that clauses can name the wrapped fault.
impl From<ByteFault> for FieldFault {
    ghost from_gives = { λ e r. r ≡ Bytes e };

    fn from(fault: ByteFault) -> FieldFault {
        FieldFault::Bytes(fault)
    }
}
