// The player: open on an input, advance by an event and a line, close with the last line.
ghost use Rattle.std.specs.Prelude.{◌≡◌};
ghost use Rattle.transcript.specs.Text.{part_of, called};
ghost use Rattle.transcript.specs.Lines.{shown, Handed};
ghost use Rattle.transcript.specs.Playing.{standing, standing_at, opened, idled, turned, Advances, last_line};

use crate::line::{LINE_ROOM, Line};
use engine::Outcome;
use input::event::Event;
use plan::Answer;
use table::Table;
use wire::codes::{REPLY_ROOM, Refusal};

// Where a player stands: in an input that goes on, at its end, at something malformed, or at a refused setup. Four ways,
// none of which has a value.
#[derive(Clone, Copy, PartialEq, Eq)]
pub enum State {
    Playing,
    Done,
    Bad,
    Refused,
}

// The table, the place in the input, how many events were played, and where the player stands.
#[derive(Clone, Copy)]
pub struct Player {
    pub table: Table,
    pub at: usize,
    pub number: u64,
    pub state: State,
}

// The player after a step, and how many bytes of the line buffer were written: 0 where there was no event, since a line
// is never empty, so no Option.
#[derive(Clone, Copy)]
pub struct Step {
    pub player: Player,
    pub wrote: usize,
}

// The longest input.
pub const LONGEST: usize = 65536;

fn stopped(table: Table, state: State) -> Player
    ensures { result ≡ standing table state }
{
    Player {
        table,
        at: 0,
        number: 0,
        state,
    }
}

// A player on an input: its header read and its setup made.
#[tactic(auto, unfolding(crate::specs::Playing::opened, crate::specs::Playing::by_header))]
pub fn open(s: &[u8]) -> Player
    ensures { result ≡ opened s.now }
{
    if s.len() > LONGEST {
        return stopped(Table::zero(), State::Bad);
    }
    let Some(h) = input::header::read_header(s) else {
        return stopped(Table::zero(), State::Bad);
    };
    let ids = h.ids.get(..h.count).unwrap_or(&h.ids);
    let o = engine::calls::setup(ids, h.mask, h.first);
    if o.answer.is_err() {
        return stopped(o.table, State::Refused);
    }
    Player {
        table: o.table,
        at: h.next,
        number: 0,
        state: State::Playing,
    }
}

// An event, called on the table.
#[tactic(auto, unfolding(crate::specs::Text::called))]
fn call(t: Table, s: &[u8], e: Event) -> Outcome
    ensures { result ≡ called t s.now e }
{
    let mut reply = [0u8; REPLY_ROOM];
    match e {
        Event::Message { from, until } => engine::calls::message(
            t,
            part(s, from, until),
            &mut reply,
        ),
        Event::Start(unit) => engine::calls::start(t, unit),
        Event::Finish {
            arrival,
            status,
            key,
            code,
            qualifier,
            transferred,
        } => engine::calls::finish(
            t,
            arrival,
            status,
            key,
            code,
            qualifier,
            transferred,
            &mut reply,
        ),
        Event::TotalReset => engine::calls::total_reset(t),
    }
}

// The part of the input from one place up to another, and an empty one where that is none.
#[tactic(auto, unfolding(crate::specs::Text::part_of))]
fn part(s: &[u8], from: usize, until: usize) -> &[u8]
    ensures { result.now ≡ part_of s.now from until }
{
    s.get(from..until).unwrap_or(&[])
}

// The player after a turn, and the answer of the event that was played, if one was.
#[derive(Clone, Copy)]
pub struct Turn {
    pub player: Player,
    pub answer: Option<Result<Answer, Refusal>>,
}

// A player that plays takes the next event; at the end of the input it is done, at a malformed event bad.
#[tactic(auto, unfolding(crate::specs::Playing::turned, crate::specs::Playing::by_next))]
fn take_turn(p: Player, s: &[u8]) -> Turn
    ensures { result ≡ turned p s.now }
{
    if p.state != State::Playing {
        return idle(p, p.state);
    }
    if p.at >= s.len() {
        return idle(p, State::Done);
    }
    if p.number == u64::MAX {
        return idle(p, State::Bad);
    }
    let Some((e, next)) = input::event::event_at(s, p.at) else {
        return idle(p, State::Bad);
    };
    let o = call(p.table, s, e);
    Turn {
        player: Player {
            table: o.table,
            at: next,
            number: p.number + 1,
            state: State::Playing,
        },
        answer: Some(o.answer),
    }
}

// No event is played, and the player stands there.
fn idle(p: Player, state: State) -> Turn
    ensures { result ≡ idled (standing_at p state) }
{
    Turn {
        player: Player { state, ..p },
        answer: None,
    }
}

// One event in, one line out; nothing is written where there is no event, or where the buffer is under 64 bytes, and
// then nothing is played either. The line is lent and its length answered, since there is no heap.
#[tactic(auto, using(crate::proofs::Lines::nothing_counted, crate::proofs::Lines::nothing_copied), unfolding(crate::specs::Playing::step_of, crate::specs::Playing::line_left))]
pub fn advance(p: Player, s: &[u8], line: &mut [u8]) -> Step
    ensures { Advances p s.now line.old result line.new }
{
    if line.len() < LINE_ROOM {
        return Step {
            player: p,
            wrote: 0,
        };
    }
    let Turn { player, answer } = take_turn(p, s);
    let Some(answer) = answer else {
        return Step { player, wrote: 0 };
    };
    let text = crate::line::event_line(player.number, answer);
    Step {
        player,
        wrote: crate::line::hand_over(&text, line),
    }
}

// The last line, for where the player stands; a player that still plays has none.
#[tactic(auto, using(crate::proofs::Lines::push_nothing), unfolding(crate::specs::Playing::last_text))]
fn last_line(p: Player) -> Line
    ensures { shown result ≡ last_line p }
{
    match p.state {
        State::Playing => crate::line::empty(),
        State::Done => crate::line::ok_line(task::map::live_count(p.table.live)),
        State::Bad => crate::line::bad_line(),
        State::Refused => crate::line::refused_line(),
    }
}

// The last line into the lent buffer.
pub fn close(p: Player, line: &mut [u8]) -> usize
    ensures { Handed (last_line p) line.old result line.new }
{
    crate::line::hand_over(&last_line(p), line)
}
