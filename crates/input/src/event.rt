// The events of a transcript: 1 a message with its length and bytes, 2 a start, 3 a finish, 4 a total reset.
ghost use Rattle.std.specs.Prelude.{◌≡◌};
ghost use Rattle.input.specs.Events.{message_at, start_at, finish_at, event_at};

use crate::number::{byte_at, number_at};

// An event with its fields; a message is the part of the input from one place up to another.
#[derive(Clone, Copy)]
pub enum Event {
    Message {
        from: usize,
        until: usize,
    },
    Start(u8),
    Finish {
        arrival: u64,
        status: u8,
        key: u8,
        code: u8,
        qualifier: u8,
        transferred: u64,
    },
    TotalReset,
}

#[tactic(auto, unfolding(crate::specs::Numbers::given, crate::specs::Events::message_at))]
fn message_at(s: &[u8], at: usize) -> Option<(Event, usize)>
    ensures { result ≡ message_at s.now at }
{
    let (n, from) = number_at(s, at)?;
    let until = from.checked_add(usize::try_from(n).ok()?)?;
    if until > s.len() {
        return None;
    }
    Some((Event::Message { from, until }, until))
}

#[tactic(auto, unfolding(crate::specs::Numbers::given, crate::specs::Events::start_at))]
fn start_at(s: &[u8], at: usize) -> Option<(Event, usize)>
    ensures { result ≡ start_at s.now at }
{
    let (unit, next) = byte_at(s, at)?;
    Some((Event::Start(unit), next))
}

#[tactic(auto, unfolding(crate::specs::Numbers::given, crate::specs::Events::finish_at))]
fn finish_at(s: &[u8], at: usize) -> Option<(Event, usize)>
    ensures { result ≡ finish_at s.now at }
{
    let (arrival, a) = number_at(s, at)?;
    let (status, b) = byte_at(s, a)?;
    let (key, c) = byte_at(s, b)?;
    let (code, d) = byte_at(s, c)?;
    let (qualifier, e) = byte_at(s, d)?;
    let (transferred, next) = number_at(s, e)?;
    let finish = Event::Finish {
        arrival,
        status,
        key,
        code,
        qualifier,
        transferred,
    };
    Some((finish, next))
}

// The event at a place, and the place after it.
#[tactic(auto, unfolding(crate::specs::Numbers::given, crate::specs::Events::event_at, crate::specs::Events::by_kind))]
pub fn event_at(s: &[u8], at: usize) -> Option<(Event, usize)>
    ensures { result ≡ event_at s.now at }
{
    let (kind, a) = number_at(s, at)?;
    match kind {
        1 => message_at(s, a),
        2 => start_at(s, a),
        3 => finish_at(s, a),
        4 => Some((Event::TotalReset, a)),
        _ => None,
    }
}
