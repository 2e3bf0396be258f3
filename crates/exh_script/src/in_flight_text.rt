ghost use Rattle.std.specs.Prelude.{◌≡◌, ◌++◌, flat_map, OnOk};
ghost use Rattle.exh_script.specs.View.{in_flight_text, request_line};
ghost use Rattle.exh_text.specs.Printing.{Keeps};

use exh_keyer::AnyKeyer;
use exh_line::push_request;
use exh_stores::Pages;
use exh_text::{push_number, push_place, push_text};
use exh_world::{Request, World};
use std::alloc::AllocError;

/// Adds the number of the requests in flight, and a line for each, in the order begun.
pub(crate) fn push_in_flight<P: Pages + Drop>(
    out: &mut Vec<u8>,
    world: &World<P, AnyKeyer>,
) -> Result<(), AllocError>
    ensures text { OnOk result (out.new.items ≡ out.old.items ++ in_flight_text world.now.in_flight) }
    ensures kept { Keeps out.old.items out.new.items }
{
    push_text(out, "inflight ")?;
    push_number(out, world.in_flight().len() as u64)?;
    push_text(out, "\n")?;
    push_requests(out, world)
}

fn push_requests<P: Pages + Drop>(
    out: &mut Vec<u8>,
    world: &World<P, AnyKeyer>,
) -> Result<(), AllocError>
    ensures text { OnOk result (out.new.items ≡ out.old.items ++ flat_map request_line world.now.in_flight) }
    ensures kept { Keeps out.old.items out.new.items }
{
    for (name, request) in world.in_flight() {
        push_standing(out, *name, request)?;
    }
    Ok(())
}

// Where a request stands.
fn push_standing(out: &mut Vec<u8>, name: u32, request: &Request) -> Result<(), AllocError>
    ensures text { OnOk result (out.new.items ≡ out.old.items ++ request_line (name, request.now)) }
    ensures kept { Keeps out.old.items out.new.items }
{
    push_request(out, name)?;
    push_text(out, " at ")?;
    push_place(out, u32::from(request.ward), u64::from(request.page))?;
    push_text(out, "\n")
}
