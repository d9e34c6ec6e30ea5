//! How a call gets to an area, as it is printed.
use crate::route::{Cause, Route};
use crate::search::AreaSearch;
use crate::text::{context_name, push_area, push_entry};
use dp_conf::NoMemory;
use dp_plan::Dialplan;
use std::alloc::Global;

/// The route from which a route is entered.
fn route_before(cause: Cause) -> Option<usize> {
    match cause {
        Cause::Entrance => None,
        Cause::Jump(route, _) | Cause::End(route) | Cause::Invalid(route) => Some(route),
    }
}

/// The numbers of the routes on the way to a route, from the last to the first.
fn way_back(alloc: Global, routes: &[Route], route: usize) -> Result<Vec<usize>, NoMemory> {
    let mut way = Vec::new(alloc);
    let mut next = Some(route);
    for _ in 0..routes.len() {
        let Some(number) = next else {
            break;
        };
        let Some(route) = routes.get(number) else {
            break;
        };
        way.push(number)?;
        next = route_before(route.cause);
    }
    Ok(way)
}

/// Adds the line of a route on which a call comes in.
fn push_entrance(out: &mut Vec<u8>, plan: &Dialplan, route: &Route) -> Result<(), NoMemory> {
    push_area(out, context_name(plan, route.context), &route.exten)?;
    out.extend_from_slice(b"  a call comes in\n")?;
    Ok(())
}

/// Adds what leads to a route from another.
fn push_cause(out: &mut Vec<u8>, plan: &Dialplan, cause: Cause) -> Result<(), NoMemory> {
    match cause {
        Cause::Entrance => Ok(()),
        Cause::Jump(_, entry) => push_entry(out, plan, entry),
        Cause::End(_) => {
            out.extend_from_slice(b"the call ends")?;
            Ok(())
        }
        Cause::Invalid(_) => {
            out.extend_from_slice(b"no extension matches")?;
            Ok(())
        }
    }
}

/// Adds the line of a route: what leads there, and its area.
fn push_route(out: &mut Vec<u8>, plan: &Dialplan, route: &Route) -> Result<(), NoMemory> {
    out.extend_from_slice(b"  ")?;
    if route.cause == Cause::Entrance {
        return push_entrance(out, plan, route);
    }
    push_cause(out, plan, route.cause)?;
    out.extend_from_slice(b" -> ")?;
    push_area(out, context_name(plan, route.context), &route.exten)?;
    out.push(b'\n')?;
    Ok(())
}

/// Adds the lines of the way to a route, starting where the call comes in.
pub(crate) fn push_chain(
    alloc: Global,
    out: &mut Vec<u8>,
    search: &AreaSearch<'_>,
    route: usize,
) -> Result<(), NoMemory> {
    let way = way_back(alloc, &search.routes, route)?;
    for number in way.iter().rev() {
        if let Some(route) = search.routes.get(*number) {
            push_route(out, search.plan, route)?;
        }
    }
    Ok(())
}
