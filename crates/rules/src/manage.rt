// Management: what an order ends, which return code it gets, and what it does to paths and units.
ghost use Rattle.std.specs.Prelude.{◌≡◌};
ghost use Rattle.rules.specs.Management.{ends_of, tag_of, unit_of, is_clear_set, by_unit, has_unit, carried_code, order_code, order_change};

use crate::change::Change;
use crate::facts::Facts;
use task::select::Selection;
use wire::codes::ReturnCode;

// An order, with the tag or the unit that it names.
#[derive(Clone, Copy)]
pub enum Order {
    AbortTask(u16),
    AbortTaskSet(u8),
    ClearTaskSet(u8),
    ClearAca(u8),
    UnitReset(u8),
    TargetReset,
}

// What an order of the path at p ends: taken from the order alone.
pub fn ends(p: u8, o: Order) -> Selection
    ensures { result ≡ ends_of p o }
{
    match o {
        Order::AbortTask(tag2) => Selection::named(p, tag2),
        Order::AbortTaskSet(lun) => Selection::from_on(p, lun),
        Order::ClearTaskSet(lun) => Selection::on_unit(lun),
        Order::ClearAca(lun) => Selection::aca_from_on(p, lun),
        Order::UnitReset(lun) => Selection::on_unit(lun),
        Order::TargetReset => Selection::ALL,
    }
}

// The tag of the task that an order names, and its unit; 0 where it names none: what is then looked up for 0, no order
// looks at.
pub fn tag_of(o: Order) -> u16
    ensures { result ≡ tag_of o }
{
    match o {
        Order::AbortTask(tag2) => tag2,
        _ => 0,
    }
}

pub fn unit_of(o: Order) -> u8
    ensures { result ≡ unit_of o }
{
    match o {
        Order::AbortTaskSet(lun)
        | Order::ClearTaskSet(lun)
        | Order::ClearAca(lun)
        | Order::UnitReset(lun) => lun,
        Order::AbortTask(_) | Order::TargetReset => 0,
    }
}

// Whether the order is CLEAR TASK SET.
pub fn clears_set(o: Order) -> bool
    ensures { result ≡ is_clear_set o }
{
    matches!(o, Order::ClearTaskSet(_))
}

// Whether an order goes by its unit alone, or by none: by no task of the sender's and no ACA.
pub fn goes_by_unit(o: Order) -> bool
    ensures { result ≡ by_unit o }
{
    !matches!(o, Order::AbortTask(_) | Order::ClearAca(_))
}

// The return code of an order whose fields are right.
fn carried_code(f: Facts, o: Order) -> ReturnCode
    ensures { result ≡ carried_code f o }
{
    match o {
        Order::AbortTask(_) if !f.taken => ReturnCode::TASK_NOT_FOUND,
        Order::ClearAca(_) if !f.owned => ReturnCode::NO_ACA,
        _ => ReturnCode::DONE,
    }
}

// Whether the order has a LUN field.
fn has_unit(o: Order) -> bool
    ensures { result ≡ has_unit o }
{
    !matches!(o, Order::AbortTask(_) | Order::TargetReset)
}

// The return code of an order: FFh for a reserved field that is not zero, or a LUN that is not attached.
#[tactic(auto, unfolding(crate::specs::Management::order_code))]
pub fn order_code(f: Facts, m: &[u8], o: Order) -> ReturnCode
    ensures { result ≡ order_code f m.now o }
{
    if wire::message::reserved_set(m) || (has_unit(o) && !f.attached) {
        return ReturnCode::INVALID_FIELD;
    }
    carried_code(f, o)
}

// What an order does besides ending tasks: CLEAR TASK SET gives the other paths that lost one, `others`, cleared
// attention; CLEAR ACA takes the ACA; a reset takes the ACA and gives reset attention.
pub fn order_change(others: u8, o: Order) -> Change
    ensures { result ≡ order_change others o }
{
    match o {
        Order::AbortTask(_) => Change::Nothing,
        Order::AbortTaskSet(_) => Change::Nothing,
        Order::ClearTaskSet(_) => Change::ClearedAttention(others),
        Order::ClearAca(lun) => Change::AcaGoes(lun),
        Order::UnitReset(lun) => Change::Resets(Some(lun)),
        Order::TargetReset => Change::Resets(None),
    }
}
