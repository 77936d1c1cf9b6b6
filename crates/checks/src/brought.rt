// What a request brings: its numbers, what goes together in it, and whether its prices are lawful.
ghost use Rattle.std.specs.Prelude.{◌≡◌};
ghost use Rattle.checks.specs.Ground.{CheckedBy};
ghost use Rattle.checks.specs.Brought.{PartChecked, ticket_checks, takes_validity};

use crate::ranges::{is_number, is_quantity, pair_up};
use grid::PriceGrid;
use rules::Validity;
use trading::{BookFault, Part, Phase, Ticket, Unlawful};

// A limit or a trigger above 0 has to be lawful.
pub fn check_lawful<G: PriceGrid>(grid: &G, part: Part, p: u32) -> Result<(), Unlawful>
    ensures { PartChecked (G.lawful grid.now) part p result }
{
    if p == 0 {
        return Ok(());
    }
    grid.check(p).map_err(|fault| Unlawful { part, fault })
}

// Whether a phase takes a ticket of this validity.
fn takes(phase: Phase, validity: Validity) -> bool
    ensures { result ≡ takes_validity phase validity }
{
    match phase {
        Phase::Ended => false,
        Phase::Call => !matches!(validity, Validity::Ioc),
        Phase::Continuous => true,
    }
}

// The checks of a ticket that need no look at the queues.
pub fn check_ticket<G: PriceGrid>(grid: &G, phase: Phase, ticket: Ticket) -> Result<(), BookFault>
    ensures { CheckedBy (ticket_checks (G.lawful grid.now) phase ticket) result }
{
    if !takes(phase, ticket.validity) {
        return Err(BookFault::WrongPhase);
    }
    if !is_number(ticket.number) {
        return Err(BookFault::NumberOutOfRange);
    }
    if !is_quantity(ticket.quantity) {
        return Err(BookFault::QuantityOutOfRange);
    }
    if !pair_up(ticket.kind, ticket.limit, ticket.trigger, ticket.validity) {
        return Err(BookFault::Unpaired);
    }
    check_lawful(grid, Part::Limit, ticket.limit)?;
    check_lawful(grid, Part::Trigger, ticket.trigger)?;
    Ok(())
}
