// A stage from a venue file and a show file.
#![tactic(auto)]

ghost use Rattle.std.specs.Prelude.{IfOk, IfErr};
ghost use Rattle.tables.specs.Contents.{Contents, contents};
ghost use Rattle.tables.specs.Plan.{plan};
ghost use Rattle.layout.specs.Reading.{FaultOf};
ghost use Rattle.files.specs.Pairs.{Laid};
ghost use Rattle.figures.specs.Laws.{Laws};
ghost use Rattle.opening.specs.Opened.{Opens};

use faults::layers::FitFault;
use fields::spot::Pair;
use figures::stage::Stage;
use files::pair::read;
use tables::reserve::Reserve;

#[cfg(test)]
mod tests;

// Reads both files into the memory that was reserved and works out the figures, or gives the fault of the first bad field.
pub fn open(reserve: Reserve, pair: Pair<'_>) -> Result<Stage, FitFault>
    ensures only { IfOk result (λ s. Laid pair.entry.venue.now pair.entry.show.now (contents s.tables)) }
    ensures every { (c : Contents) → Laid pair.entry.venue.now pair.entry.show.now c → Opens result c }
    ensures fault { IfErr result (FaultOf pair.entry.venue.now pair.entry.show.now) }
    ensures laws { IfOk result (λ s. Laws (plan s.tables)) }
{
    let tables = read(reserve, pair)?;
    Ok(Stage::prepare(tables))
}
