// The rules of a command: the tests, and the first that applies.
ghost use Rattle.std.specs.Prelude.{◌≡◌, ◌++◌};
ghost use Rattle.wire.specs.Codes;
ghost use Rattle.rules.specs.First.{first_that};
ghost use Rattle.rules.specs.Rules;
ghost use Rattle.rules.specs.Rules.{asks_aca, resumes_unmarked, misses_resume, passes_attention, reset_to_report, cleared_to_report, field_rules, unit_rules, block_rules, accepts, deciding, decision};

use crate::change::{QueueChange, SenderChange};
use crate::facts::Facts;
use wire::codes::{INQUIRY, Kind, REQUEST_SENSE, Refusal, ReturnCode, Sense, StatusByte};
use wire::fields::byte_at;
use wire::message::Flags;

// What a rule answers, with what that does to the sender; with a STATUS also what it does to the queue of the unit. A
// refusal changes nothing.
#[derive(Clone, Copy)]
pub enum Ruling {
    Refuse(Refusal),
    Respond(ReturnCode, SenderChange),
    Report(StatusByte, Sense, SenderChange, QueueChange),
    Invalid(SenderChange),
    Accept,
}

// The number of the rule that decided, and its answer.
#[derive(Clone, Copy)]
pub struct Decision {
    pub rule: u8,
    pub ruling: Ruling,
}

// INQUIRY and REQUEST SENSE go past a pending attention.
#[tactic(auto, unfolding(crate::specs::Rules::passes_attention))]
fn passes_attention(m: &[u8]) -> bool
    ensures { result ≡ passes_attention m.now }
{
    matches!(byte_at(m, 16), INQUIRY | REQUEST_SENSE)
}

// A command under the rules: what was asked of the table for it, and the flags of its byte 10.
#[derive(Clone, Copy)]
struct Case {
    facts: Facts,
    flags: Flags,
}

// When a rule applies.
impl Case {
    // RESUME set, path not marked.
    #[tactic(auto, unfolding(crate::specs::Rules::resumes_unmarked))]
    fn resumes_unmarked(self) -> bool
        ensures { result ≡ resumes_unmarked self.facts self.flags }
    {
        self.flags.resume && !self.facts.marked
    }

    // RESUME clear, marked.
    #[tactic(auto, unfolding(crate::specs::Rules::misses_resume))]
    fn misses_resume(self) -> bool
        ensures { result ≡ misses_resume self.facts self.flags }
    {
        !self.flags.resume && self.facts.marked
    }

    // OOT and CONFIRM both set: bytes that may come out of order have no offset to restart at.
    #[tactic(auto, unfolding(crate::specs::Rules::contradicts))]
    fn contradicts(self) -> bool
        ensures { result ≡ Rules.contradicts self.flags }
    {
        self.flags.oot && self.flags.confirm
    }

    fn asks_aca(self) -> bool
        ensures { result ≡ asks_aca self.flags }
    {
        self.flags.queue == Kind::Aca
    }

    // The unit has ACA, and it keeps this command out.
    #[tactic(auto, unfolding(crate::specs::Rules::kept_out_by_aca))]
    fn kept_out_by_aca(self) -> bool
        ensures { result ≡ Rules.kept_out_by_aca self.facts self.flags }
    {
        self.facts.aca && !(self.facts.owned && self.asks_aca() && !self.facts.busy)
    }

    // No ACA and kind ACA.
    #[tactic(auto, unfolding(crate::specs::Rules::aca_kind_without_aca))]
    fn aca_kind_without_aca(self) -> bool
        ensures { result ≡ Rules.aca_kind_without_aca self.facts self.flags }
    {
        !self.facts.aca && self.asks_aca()
    }

    #[tactic(auto, unfolding(crate::specs::Rules::reset_to_report))]
    fn reset_to_report(self, m: &[u8]) -> bool
        ensures { result ≡ reset_to_report self.facts m.now }
    {
        table::paths::is_reset(self.facts.attention) && !passes_attention(m)
    }

    #[tactic(auto, unfolding(crate::specs::Rules::cleared_to_report))]
    fn cleared_to_report(self, m: &[u8]) -> bool
        ensures { result ≡ cleared_to_report self.facts m.now }
    {
        table::paths::is_cleared(self.facts.attention) && !passes_attention(m)
    }
}

fn refuse(rule: u8, n: Refusal) -> Decision
    ensures { result ≡ Rules.decided rule (Ruling.Refuse n) }
{
    Decision {
        rule,
        ruling: Ruling::Refuse(n),
    }
}

fn respond(rule: u8, code: ReturnCode, sender: SenderChange) -> Decision
    ensures { result ≡ Rules.decided rule (Ruling.Respond code sender) }
{
    Decision {
        rule,
        ruling: Ruling::Respond(code, sender),
    }
}

// A STATUS that leaves the queue as it is.
fn report(rule: u8, status: StatusByte, sense: Sense, sender: SenderChange) -> Decision
    ensures { result ≡ Rules.decided rule (Ruling.Report status sense sender QueueChange.Leaves) }
{
    Decision {
        rule,
        ruling: Ruling::Report(status, sense, sender, QueueChange::Leaves),
    }
}

// CHECK CONDITION, with sense, that holds the queue.
fn hold(rule: u8, sense: Sense, sender: SenderChange) -> Decision
    ensures { result ≡ Rules.decided rule (Ruling.Report Codes.check_condition sense sender QueueChange.Holds) }
{
    Decision {
        rule,
        ruling: Ruling::Report(
            StatusByte::CHECK_CONDITION,
            sense,
            sender,
            QueueChange::Holds,
        ),
    }
}

// Rule 8: the pending attention is reported, and goes.
fn tell_attention(sense: Sense) -> Decision
    ensures { result ≡ Rules.decided 8 (Ruling.Report Codes.check_condition sense SenderChange.ClearMarkAndAttention QueueChange.Holds) }
{
    hold(8, sense, SenderChange::ClearMarkAndAttention)
}

// Rules 9 to 11: the command block.
#[tactic(auto, unfolding(crate::specs::Rules::block_rules, crate::specs::First::first_that))]
fn by_block(m: &[u8]) -> Decision
    ensures { result ≡ decision (first_that (block_rules m.now) (accepts m.now)) }
{
    if wire::block::no_length(m) {
        return hold(9, Sense::UNKNOWN_COMMAND, SenderChange::ClearMark);
    }
    if wire::block::is_linked(m) {
        return hold(10, Sense::INVALID_IN_BLOCK, SenderChange::ClearMark);
    }
    Decision {
        rule: 11,
        ruling: Ruling::Accept,
    }
}

// The rules in their order, in four groups: the first of a group that applies, and else the next group.
impl Case {
    // Rules 6 to 8: the unit, its ACA, and the sender's attention; then those of the block.
    #[tactic(auto, unfolding(crate::specs::Rules::unit_rules, crate::specs::First::first_that))]
    fn by_unit(self, m: &[u8]) -> Decision
        ensures { result ≡ decision (first_that (unit_rules self.facts self.flags m.now ++ block_rules m.now) (accepts m.now)) }
    {
        if !self.facts.attached {
            return report(
                6,
                StatusByte::CHECK_CONDITION,
                Sense::NO_SUCH_UNIT,
                SenderChange::ClearMark,
            );
        }
        if self.kept_out_by_aca() {
            return report(
                7,
                StatusByte::ACA_ACTIVE,
                Sense::NONE,
                SenderChange::ClearMark,
            );
        }
        if self.aca_kind_without_aca() {
            return hold(7, Sense::NO_ACA_THERE, SenderChange::ClearMark);
        }
        if self.reset_to_report(m) {
            return tell_attention(Sense::RESET_OCCURRED);
        }
        if self.cleared_to_report(m) {
            return tell_attention(Sense::CLEARED_BY_ANOTHER);
        }
        by_block(m)
    }

    // Rules 3 to 5: the fields, OOT with CONFIRM, and the tag; then those of the unit.
    #[tactic(auto, unfolding(crate::specs::Rules::field_rules, crate::specs::First::first_that))]
    fn by_fields(self, m: &[u8]) -> Decision
        ensures { result ≡ decision (first_that (field_rules self.facts self.flags m.now ++ (unit_rules self.facts self.flags m.now ++ block_rules m.now)) (accepts m.now)) }
    {
        if wire::message::reserved_set(m) {
            return respond(3, ReturnCode::INVALID_FIELD, SenderChange::ClearMark);
        }
        if self.contradicts() {
            return Decision {
                rule: 4,
                ruling: Ruling::Invalid(SenderChange::ClearMark),
            };
        }
        if self.facts.taken {
            return respond(5, ReturnCode::OVERLAPPED, SenderChange::ClearMark);
        }
        self.by_unit(m)
    }

    // Rules 1 and 2: room and length; then the others.
    #[tactic(auto, unfolding(crate::specs::Rules::command_rules, crate::specs::Rules::room_rules, crate::specs::First::first_that))]
    fn by_room(self, m: &[u8]) -> Decision
        ensures { result ≡ decision (deciding self.facts self.flags m.now) }
    {
        if self.resumes_unmarked() {
            return respond(1, ReturnCode::INVALID_FIELD, SenderChange::Stays);
        }
        if self.misses_resume() {
            return refuse(1, Refusal::Discarded);
        }
        if !self.facts.room {
            return report(
                1,
                StatusByte::TASK_SET_FULL,
                Sense::NONE,
                SenderChange::SetMark,
            );
        }
        if wire::block::cut_short(m) {
            return refuse(2, Refusal::TooShort);
        }
        self.by_fields(m)
    }
}

// The first rule that applies.
pub fn decide(f: Facts, g: Flags, m: &[u8]) -> Decision
    ensures { result ≡ decision (deciding f g m.now) }
{
    Case { facts: f, flags: g }.by_room(m)
}
