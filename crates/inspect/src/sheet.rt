// The resources, and each route with its positions, in columns.
use figures::stage::Stage;
use std::io;
use tables::position::Position;
use tables::resource::Resource;
use tables::route::Route;
use texts::claims::claims_at;
use texts::columns::{claims_text, needs_text, next_text};
use texts::names::{names_of, widest};

fn print_resources(rt: &HostRuntime, resources: &[Resource], names: &[String]) -> io::Result<()> {
    let width = widest(names);
    println!(rt; "resource  {:<width$}  capacity  order", "name")?;
    for (number, (resource, name)) in resources.iter().zip(names.iter()).enumerate() {
        let capacity = resource.capacity;
        let order = resource.order;
        println!(rt; "{number:>8}  {name:<width$}  {capacity:>8}  {order:>5}")?;
    }
    Ok(())
}

// The column of the next positions has room for four numbers of three digits.
fn print_route(
    rt: &HostRuntime,
    route: &Route,
    positions: &[Position],
    names: &[String],
) -> io::Result<()> {
    println!(rt; "position  {:<15}  needs", "next")?;
    let first = usize::from(route.first);
    let count = usize::from(route.count);
    for (number, position) in positions.iter().enumerate().skip(first).take(count) {
        let next = next_text(rt.alloc(), position.nexts.as_slice())?;
        let needs = needs_text(rt.alloc(), names, &position.needs)?;
        println!(rt; "{number:>8}  {next:<15}  {needs}")?;
    }
    Ok(())
}

// By number, which the stage is asked by and which is printed.
fn print_figures(
    rt: &HostRuntime,
    route: &Route,
    stage: &Stage,
    names: &[String],
) -> io::Result<()> {
    println!(rt; "position  length  claims")?;
    for p in route.first..route.first.saturating_add(route.count) {
        let length = stage.length(p);
        let claims = claims_at(rt.alloc(), stage, p)?;
        let text = claims_text(rt.alloc(), names, claims.as_slice())?;
        println!(rt; "{p:>8}  {length:>6}  {text}")?;
    }
    Ok(())
}

// The resources first, then the routes, each with a line for each of its positions and for its figures.
pub fn print(rt: &HostRuntime, stage: &Stage) -> io::Result<()> {
    let tables = &stage.tables;
    let names = names_of(rt.alloc(), tables.resources())?;
    print_resources(rt, tables.resources(), names.as_slice())?;
    for (number, route) in tables.routes().iter().enumerate() {
        println!(rt; "\nroute {number}")?;
        print_route(rt, route, tables.positions(), names.as_slice())?;
        print_figures(rt, route, stage, names.as_slice())?;
    }
    Ok(())
}
