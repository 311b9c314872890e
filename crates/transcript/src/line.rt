// A line of the transcript, made word by word. No line is longer than 64 bytes; a line that is full takes no more.
ghost use Rattle.std.specs.Prelude.{◌≡◌, ◌%◌, ◌++◌, []};
ghost use Rattle.wire.specs.Codes;
ghost use Rattle.transcript.specs.Lines.{shown, push_all, decimal_of, digit_of, hex_of, hex_word, sense_text, reply_text, answer_text, line_of, end_ok, Handed};
ghost use Rattle.transcript.specs.Text.{end_of};

use plan::Answer;
use reply::Reply;
use wire::codes::{Refusal, Sense};
use wire::fields::copy;

// The room of a line.
pub const LINE_ROOM: usize = 64;

// A line in the making: so many bytes at the front. (No ArrayVec: a line is Copy, and that is not.)
#[derive(Clone, Copy)]
pub struct Line {
    pub bytes: [u8; LINE_ROOM],
    pub len: usize,
}

// A line with nothing on it.
pub(crate) fn empty() -> Line
    ensures { shown result ≡ [] }
{
    Line {
        bytes: [0; LINE_ROOM],
        len: 0,
    }
}

// All bytes of a word, or as many as there is room for.
fn push_word(line: &mut Line, word: &[u8])
    ensures { shown line.new ≡ push_all (shown line.old) word.now }
{
    let at = line.len.min(LINE_ROOM);
    let n = word.len().min(LINE_ROOM - at);
    line.bytes[at..at + n].copy_from_slice(&word[..n]);
    line.len = at + n;
}

// A number in decimal.
#[tactic(auto, using(crate::proofs::Lines::decimal_law))]
fn push_decimal(line: &mut Line, n: u64)
    ensures { shown line.new ≡ push_all (shown line.old) (decimal_of n) }
{
    push_word(line, itoa::Buffer::new().format(n).as_bytes());
}

// An upper-case hex digit. By hand: `write!` says what it wrote where it succeeds, and nowhere that it does.
fn digit(d: u8) -> u8
    ensures { result ≡ digit_of (d % 16) }
{
    let low = d % 16;
    if low < 10 {
        b'0' + low
    } else {
        b'A' + (low - 10)
    }
}

// A space and a byte in two hex digits.
fn push_hex(line: &mut Line, b: u8)
    ensures { shown line.new ≡ push_all (shown line.old) (hex_of b) }
{
    push_word(line, &[b' ', digit(b / 16), digit(b)]);
}

// A space and a tag in four hex digits.
fn push_tag(line: &mut Line, tag: u16)
    ensures { shown line.new ≡ push_all (shown line.old) (hex_word tag) }
{
    let [high, low] = tag.to_be_bytes();
    push_word(
        line,
        &[
            b' ',
            digit(high / 16),
            digit(high),
            digit(low / 16),
            digit(low),
        ],
    );
}

// The sense fields of a status.
#[tactic(auto, using(crate::proofs::Lines::push_append))]
fn push_sense(line: &mut Line, s: Sense)
    ensures { shown line.new ≡ push_all (shown line.old) (sense_text s) }
{
    push_hex(line, s.key);
    push_hex(line, s.code);
    push_hex(line, s.qualifier);
}

// A word and a number in decimal.
#[tactic(auto, using(crate::proofs::Lines::push_append))]
fn push_number(line: &mut Line, word: &[u8], n: u64)
    ensures { shown line.new ≡ push_all (shown line.old) (word.now ++ decimal_of n) }
{
    push_word(line, word);
    push_decimal(line, n);
}

// A word, a tag and a code or status.
#[tactic(auto, using(crate::proofs::Lines::push_append))]
fn push_coded(line: &mut Line, word: &[u8], tag: u16, b: u8)
    ensures { shown line.new ≡ push_all (shown line.old) (word.now ++ (hex_word tag ++ hex_of b)) }
{
    push_word(line, word);
    push_tag(line, tag);
    push_hex(line, b);
}

// What a reply says.
#[tactic(auto, using(crate::proofs::Lines::push_append), unfolding(crate::specs::Lines::reply_text))]
fn push_reply(line: &mut Line, r: Reply)
    ensures { shown line.new ≡ push_all (shown line.old) (reply_text r) }
{
    match r {
        Reply::Response { tag, code } => push_coded(line, b" response", tag, code.0),
        Reply::Status { tag, status, sense } => {
            push_coded(line, b" status", tag, status.0);
            push_sense(line, sense);
        }
        Reply::Invalid { tag } => {
            push_word(line, b" invalid");
            push_tag(line, tag);
        }
    }
}

// What an answer says behind the event's number.
#[tactic(auto, using(crate::proofs::Lines::push_nothing), unfolding(crate::specs::Lines::answer_text))]
fn push_answer(line: &mut Line, a: Result<Answer, Refusal>)
    ensures { shown line.new ≡ push_all (shown line.old) (answer_text a) }
{
    match a {
        Ok(Answer::Ready) => {}
        Ok(Answer::Accepted(n)) => push_number(line, b" accepted ", n),
        Ok(Answer::Reply(r)) => push_reply(line, r),
        Ok(Answer::Started { offset: _, arrival }) => push_number(line, b" started ", arrival),
        Ok(Answer::Confirmed(n)) => push_number(line, b" confirmed ", n),
        Ok(Answer::Restarted(n)) => push_number(line, b" restarted ", n),
        Ok(Answer::Reset) => push_word(line, b" reset"),
        Err(n) => push_number(line, b" refused ", u64::from(n.number())),
    }
}

// The line of event n.
#[tactic(auto, using(crate::proofs::Lines::push_append))]
pub(crate) fn event_line(n: u64, a: Result<Answer, Refusal>) -> Line
    ensures { shown result ≡ push_all [] (line_of n a) }
{
    let mut line = empty();
    push_decimal(&mut line, n);
    push_answer(&mut line, a);
    push_word(&mut line, b"\n");
    line
}

// The three last lines.
#[tactic(auto, using(crate::proofs::Lines::push_append))]
pub(crate) fn ok_line(live: u32) -> Line
    ensures { shown result ≡ push_all [] (end_ok live) }
{
    let mut line = empty();
    push_number(&mut line, b"end ok ", u64::from(live));
    push_word(&mut line, b"\n");
    line
}

pub(crate) fn bad_line() -> Line
    ensures { shown result ≡ push_all [] (end_of Codes.malformed) }
{
    let mut line = empty();
    push_word(&mut line, b"end bad\n");
    line
}

#[tactic(auto, unfolding(crate::specs::Lines::decimal_in))]
pub(crate) fn refused_line() -> Line
    ensures { shown result ≡ push_all [] (end_of Codes.bad_paths) }
{
    let mut line = empty();
    push_word(&mut line, b"end refused 11\n");
    line
}

// Copies a line to the front of a lent buffer, and answers its length; a buffer under 64 bytes keeps its bytes.
#[tactic(auto, unfolding(crate::specs::Lines::handed_of, crate::specs::Lines::handed_in))]
pub(crate) fn hand_over(text: &Line, line: &mut [u8]) -> usize
    ensures { Handed (shown text.now) line.old result line.new }
{
    if line.len() < LINE_ROOM {
        return 0;
    }
    copy(text.bytes.get(..text.len).unwrap_or(&text.bytes), line)
}
