// The show file: a header, one or more routes, each followed by its positions, and an end.
ghost use Rattle.std.specs.Prelude.{◌≡◌, ℕ, ◌-◌, ◌≤◌, ◌||◌, List, length, IfOk, if◌then◌else◌, vec_len, vec_capacity, MatchResult, OnOk, nat_eq, nat_le, nat_lt};
ghost use Rattle.fields.specs.Bytes.{tag, past, spot_at};
ghost use Rattle.fields.specs.Fields.{point_of, next_field, finished, closed, Shaped};
ghost use Rattle.fields.specs.declared.spot.File.TheVariants.{Show as InShow};
ghost use Rattle.fields.specs.declared.field.Turn.TheVariants.{FirstRoute, MoreRoutes};
ghost use Rattle.tables.specs.Model.{counts_of, positions_of};
ghost use Rattle.layout.specs.Reading.{Reaches, FirstBad, Ends, show_start};
ghost use Rattle.files.specs.Pairs.{ShowIn};
ghost use Rattle.files.specs.Steps.{field_as, closed_as, show_at};

use crate::position::{Slot, read_position};
use crate::turns::turn_after;
use faults::layers::{FitFault, TableFault};
use fields::faults::FieldFault;
use fields::field::{Field, Turn};
use fields::reader::FieldReader;
use fields::spot::File;
use tables::position::Position;
use tables::reserve::ShowReserve;
use tables::resource::Resource;
use tables::route::Route;
use tables::show::Show;

const MOST_ROUTES: usize = 16;

const MOST_POSITIONS: usize = 128;

// The positions of one route, up to the number `end`, behind those that are there; each is read as the number that it gets.
fn read_positions(
    reader: &mut FieldReader<'_>,
    resources: &[Resource],
    end: usize,
    positions: &mut Vec<Position>,
) -> Result<(), FitFault>
    requires { (reader.old.file ≡ InShow) × ((vec_len positions.old ≤ end) × (end ≤ vec_capacity positions.old)) }
    ensures went { (ns : List ℕ) → MatchResult result (λ _. Reaches (show_at resources.now ns (positions_of positions.old.items) (end - vec_len positions.old) (point_of reader.old)) (show_at resources.now ns (positions_of positions.new.items) 0 (point_of reader.new))) (λ e. FirstBad (show_at resources.now ns (positions_of positions.old.items) (end - vec_len positions.old) (point_of reader.old)) e) }
    ensures kept { OnOk result ((vec_len positions.new ≡ end) × (vec_capacity positions.new ≡ vec_capacity positions.old) × (reader.new.file ≡ InShow)) }
{
    let first = positions.len();
    for own in first..end {
        let position = read_position(reader, resources, Slot { own, end })?;
        positions.push_reserved(position);
    }
    Ok(())
}

// The next field, as the tables' layer has it.
fn table_field<'a>(reader: &mut FieldReader<'a>, turn: Turn) -> Result<Field<'a>, TableFault>
    ensures found { field_as result (next_field turn (point_of reader.old)) }
    ensures moved { IfOk result (λ f. (point_of reader.new ≡ past (point_of reader.old)) × Shaped (tag (point_of reader.old).left) f) }
{
    let field = reader.next(turn)?;
    Ok(field)
}

fn table_close(reader: &FieldReader<'_>) -> Result<(), TableFault>
    ensures { closed_as result (closed (finished (spot_at (point_of reader.now)) (point_of reader.now).left)) }
{
    reader.close()?;
    Ok(())
}

// Whether one route more than `routes` is too many, or positions up to the number `end` are.
fn too_many(routes: usize, end: usize) -> bool
    ensures { result ≡ (nat_le 16 routes || nat_lt 128 end) }
{
    routes >= MOST_ROUTES || end > MOST_POSITIONS
}

// The whole file, its routes and positions into the tables; their needs are judged by the venue's resources.
fn read_routes(
    resources: &[Resource],
    bytes: &[u8],
    routes: &mut Vec<Route>,
    positions: &mut Vec<Position>,
) -> Result<(), FitFault>
    requires { (length resources.now ≤ 16) × ((vec_len routes.old ≡ 0) × ((vec_len positions.old ≡ 0) × ((16 ≤ vec_capacity routes.old) × (128 ≤ vec_capacity positions.old)))) }
    ensures { MatchResult result (λ _. ShowIn resources.now bytes.now routes.new.items positions.new.items) (λ e. FirstBad (show_start resources.now bytes.now) e) }
{
    let mut reader = FieldReader::over(File::Show, bytes);
    table_field(&mut reader, Turn::Head)?;
    loop {
        let spot = reader.spot();
        match table_field(
            &mut reader,
            turn_after(routes.len(), Turn::FirstRoute, Turn::MoreRoutes),
        )? {
            Field::Route { count } => {
                let first = positions.len();
                let end = first + usize::from(count);
                if too_many(routes.len(), end) {
                    // the value stands where it is made
                    return Err(FitFault::Tables(TableFault::Fields(FieldFault::TooMany(spot))));
                }
                routes.push_reserved(Route {
                    // below 128, as is proved
                    first: first as u16,
                    count,
                });
                read_positions(&mut reader, resources, end, positions)?;
            }
            Field::End => {
                table_close(&reader)?;
                return Ok(());
            }
            _ => unreachable(),
        }
    }
}

// The show, in memory that was reserved for it.
pub fn read_show(
    resources: &[Resource],
    reserve: ShowReserve,
    bytes: &[u8],
) -> Result<Show, FitFault>
    requires { length resources.now ≤ 16 }
    ensures ends { MatchResult result (λ s. Ends (show_start resources.now bytes.now) resources.now (counts_of s.routes.items) (positions_of s.positions.items)) (λ e. FirstBad (show_start resources.now bytes.now) e) }
    ensures laid { IfOk result (λ s. ShowIn resources.now bytes.now s.routes.items s.positions.items) }
{
    let ShowReserve {
        mut routes,
        mut positions,
    } = reserve;
    read_routes(resources, bytes, &mut routes, &mut positions)?;
    Ok(Show { routes, positions })
}
