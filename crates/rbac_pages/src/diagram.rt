//! A schedule as Lamport's space-time diagram, in SVG: a line for each member, an arrow for each message that was taken, a dot for each
//! command that was submitted or delivered. Time runs down, a row for each line of the schedule.
ghost use Rattle.std.specs.Prelude.{◌≡◌, ◌++◌, count_by, IfOk, OnOk};
ghost use Rattle.std.specs.Option.{option_copied};
ghost use Rattle.rbac_words.specs.World.{is_member};
ghost use Rattle.rbac_words.specs.Keeping.Member.{node_of};
ghost use Rattle.rbac_pages.specs.RefusedText.{refusal_sentence};
ghost use Rattle.rbac_pages.specs.TraceText.{member_numbers};
ghost use Rattle.rbac_pages.specs.DiagramText.{place_at, answer_word, submitted_word, submitted_words, other_number, numbers_of, waiting_words, delivered_words, acknowledged_words, sent_mark, acknowledged_mark, taken_mark, received_mark, delivered_mark, delivery_mark, event_mark, number_mark, arrow_from, event_arrow, taken_arrow, sent_with, begun, with_row, refused_at, refused_mark, with_refused_row, line_number, width_text, size_text, view_width, view_height, view_text, frame_text, style_text, meaning_text, refused_meaning, first_meanings, other_meanings, name_text, member_name, member_text, member_of_number, picture_text};

mod marks;
mod messages;

use crate::diagram::marks::{
    Place, put_arrow, put_cross, put_dot, put_line, put_text_at, put_words,
};
use crate::diagram::messages::{Sent, message_of};
use crate::held::{Awaited, MEMBER_NUMBERS, awaited_of, held_of};
use crate::refusing::Sentence;
use crate::text::{Teller, put, put_all};
use crate::trace::{Shown, member_of, record_of};
use rbac_member::Member;
use rbac_terms::Answer;
use rbac_text::command_word;
use rbac_words::{Event, Outcome, Record, Refusal, Stamp};
use rbac_world::World;
use std::alloc::{AllocError, Global};
use std::marker::Model;

const LEFT: u64 = 84;

const TOP: u64 = 124;

const STEP: u64 = 220;

const RISE: u64 = 26;

const STYLE: &[u8] = br##"<title>The schedule as a space-time diagram</title>
<style>
text { font: 13px sans-serif; fill: #222; paint-order: stroke; stroke: white; stroke-width: 4px; stroke-linejoin: round } .small { font-size: 11px; fill: #555 } .name { font-weight: bold }
line { stroke: #9ab; stroke-width: 1.2 } .message { stroke: #456 } circle { stroke: white; stroke-width: 1.5 } .sends { fill: #2a62b8 } .takes { fill: #456 } .delivers { fill: #2c8a4b }
.waits { fill: white; stroke: #456 } .refused { stroke: #b33; stroke-width: 2.2 }
</style>
<defs><marker id="tip" viewBox="0 0 8 8" refX="13" refY="4" markerWidth="8" markerHeight="8" orient="auto">
<path d="M0,0 L8,4 L0,8 z" fill="#456"/></marker></defs>
<rect width="100%" height="100%" style="fill: white; stroke: none"/>
<text x="24" y="26" class="small">Time runs down, a row for each line. An arrow is a message, from where it was sent to where it was taken.</text>
"##;

// Where a member's line meets a row.
#[tactic(auto, unfolding(crate::specs::DiagramText::place_at))]
fn place_at(member: u32, row: u64) -> Place
    ensures { result ≡ place_at member row }
{
    Place {
        x: LEFT.saturating_add(STEP.saturating_mul(u64::from(member).saturating_sub(1))),
        y: TOP.saturating_add(RISE.saturating_mul(row)),
    }
}

// The word of an answer: what a review lists is told by its length.
fn put_answer_word(text: &mut Vec<u8>, answer: &Answer) -> Result<(), AllocError>
    ensures { OnOk result (text.new.items ≡ text.old.items ++ answer_word answer.now) }
{
    match answer {
        Answer::Done => text.extend_from_slice(b"Done"),
        Answer::Granted => text.extend_from_slice(b"Granted"),
        Answer::Refused => text.extend_from_slice(b"Refused"),
        Answer::Names(names) => {
            let count = names.len();
            put(text, format_args!("{count} names"))
        }
        Answer::Permissions(permissions) => {
            let count = permissions.permissions().len();
            put(text, format_args!("{count} permissions"))
        }
        Answer::Count(count) => put(text, format_args!("{count}")),
        Answer::Denied(denial) => text.extend_from_slice(denial.word().as_bytes()),
    }
}

// What a submitted event is.
fn put_submitted_word(text: &mut Vec<u8>, event: &Event) -> Result<(), AllocError>
    ensures { OnOk result (text.new.items ≡ text.old.items ++ submitted_word event.now) }
{
    match event {
        Event::Submit { command, .. } => text.extend_from_slice(command_word(
            command.get(),
        ).as_bytes()),
        Event::SubmitBatch { commands, .. } => {
            let count = commands.as_slice().len();
            put(text, format_args!("batch of {count}"))
        }
        Event::Receive { .. } | Event::Deliver { .. } => Ok(()),
    }
}

// A submitted event, with its stamp.
#[derive(Drop)]
struct SubmittedTeller {
    stamp: Stamp,
}

impl Teller<Event, u8> for SubmittedTeller {
    ghost told_of = { λ teller event. submitted_words event teller.stamp };

    fn put(&self, text: &mut Vec<u8>, event: &Event) -> Result<(), AllocError> {
        let stamp = Shown { stamp: self.stamp };
        put(text, format_args!("{stamp} "))?;
        put_submitted_word(text, event)
    }
}

// The stamp of an acknowledgement.
#[derive(Drop)]
struct AcknowledgedTeller;

impl Teller<Stamp, u8> for AcknowledgedTeller {
    ghost told_of = { λ teller stamp. acknowledged_words stamp };

    fn put(&self, text: &mut Vec<u8>, stamp: &Stamp) -> Result<(), AllocError> {
        let stamp = Shown { stamp: *stamp };
        put(text, format_args!("{stamp} acknowledges"))
    }
}

// A record that was delivered.
#[derive(Drop)]
struct DeliveredTeller;

impl Teller<Record, u8> for DeliveredTeller {
    ghost told_of = { λ teller delivered. delivered_words delivered };

    fn put(&self, text: &mut Vec<u8>, delivered: &Record) -> Result<(), AllocError> {
        let stamp = Shown {
            stamp: delivered.stamp,
        };
        put(text, format_args!("{stamp} "))?;
        put_answer_word(text, &delivered.answer)
    }
}

// The number of a member that is waited for, behind a comma.
#[derive(Drop)]
struct OtherTeller;

impl Teller<Awaited, u8> for OtherTeller {
    ghost told_of = { λ teller one. other_number one };

    fn put(&self, text: &mut Vec<u8>, one: &Awaited) -> Result<(), AllocError> {
        let number = one.member;
        put(text, format_args!(", {number}"))
    }
}

// The numbers of those that are waited for.
fn put_numbers(text: &mut Vec<u8>, awaited: &[Awaited]) -> Result<(), AllocError>
    ensures { OnOk result (text.new.items ≡ text.old.items ++ numbers_of awaited.now) }
{
    match awaited {
        [] => Ok(()),
        [one, others @ ..] => {
            let number = one.member;
            put(text, format_args!(" {number}"))?;
            put_all(text, &OtherTeller, others)
        }
    }
}

// Why a member delivers nothing.
#[derive(Drop)]
struct WaitingTeller<'w> {
    alloc: Global,
    world: &'w World,
    held: &'w [Stamp],
}

impl Teller<Member, u8> for WaitingTeller<'_> {
    ghost told_of = { λ teller member. waiting_words teller.world.now (node_of member) teller.held.now };

    fn put(&self, text: &mut Vec<u8>, member: &Member) -> Result<(), AllocError> {
        match self.held {
            [] => text.extend_from_slice(b"holds nothing"),
            [least, ..] => {
                let stamp = Shown { stamp: *least };
                put(text, format_args!("{stamp} waits for"))?;
                let awaited = awaited_of(self.alloc, self.world, member, *least)?;
                put_numbers(text, &awaited)
            }
        }
    }
}

// A refusal's sentence.
#[derive(Drop)]
struct RefusedTeller;

impl Teller<Refusal, u8> for RefusedTeller {
    ghost told_of = { λ teller refusal. refusal_sentence refusal };

    fn put(&self, text: &mut Vec<u8>, refusal: &Refusal) -> Result<(), AllocError> {
        let sentence = Sentence { refusal: *refusal };
        put(text, format_args!("{sentence}"))
    }
}

// The mark of a submitted event.
#[tactic(auto, unfolding(crate::specs::DiagramText::sent_mark))]
fn put_sent(marks: &mut Vec<u8>, row: u64, event: &Event, stamp: Stamp) -> Result<(), AllocError>
    ensures { OnOk result (marks.new.items ≡ marks.old.items ++ sent_mark row event.now stamp) }
{
    let place = place_at(member_of(event), row);
    put_dot(marks, place, "sends")?;
    put_words(marks, place, &SubmittedTeller { stamp }, event)
}

// The acknowledgement of a message.
fn put_acknowledged(
    marks: &mut Vec<u8>,
    place: Place,
    acknowledged: Option<Stamp>,
) -> Result<(), AllocError>
    ensures { OnOk result (marks.new.items ≡ marks.old.items ++ acknowledged_mark place acknowledged) }
{
    match acknowledged {
        None => Ok(()),
        Some(stamp) => put_words(marks, place, &AcknowledgedTeller, &stamp),
    }
}

// The mark of a message that was taken.
fn put_taken(
    marks: &mut Vec<u8>,
    place: Place,
    acknowledged: Option<Stamp>,
) -> Result<(), AllocError>
    ensures { OnOk result (marks.new.items ≡ marks.old.items ++ taken_mark place acknowledged) }
{
    put_dot(marks, place, "takes")?;
    put_acknowledged(marks, place, acknowledged)
}

// The mark of a receipt.
#[tactic(auto, unfolding(crate::specs::DiagramText::received_mark))]
fn put_received(
    marks: &mut Vec<u8>,
    row: u64,
    event: &Event,
    acknowledged: Option<Stamp>,
) -> Result<(), AllocError>
    ensures { OnOk result (marks.new.items ≡ marks.old.items ++ received_mark row event.now acknowledged) }
{
    match event {
        Event::Receive { at, .. } => put_taken(marks, place_at(*at, row), acknowledged),
        Event::Submit { .. } | Event::SubmitBatch { .. } | Event::Deliver { .. } => Ok(()),
    }
}

// The mark of what a member delivered, or of why it delivered nothing.
fn put_delivered(
    alloc: Global,
    marks: &mut Vec<u8>,
    world: &World,
    member: &Member,
    place: Place,
    delivered: Option<&Record>,
) -> Result<(), AllocError>
    ensures { OnOk result (marks.new.items ≡ marks.old.items ++ delivered_mark world.now (node_of member.now) place (option_copied delivered.entry)) }
{
    match delivered {
        Some(delivered) => {
            put_dot(marks, place, "delivers")?;
            put_words(marks, place, &DeliveredTeller, delivered)
        }
        None => {
            let held = held_of(alloc, world, member)?;
            let teller = WaitingTeller {
                alloc,
                world,
                held: &held,
            };
            put_dot(marks, place, "waits")?;
            put_words(marks, place, &teller, member)
        }
    }
}

// The mark of a delivery.
#[tactic(auto, unfolding(crate::specs::DiagramText::delivery_mark))]
fn put_delivery(
    alloc: Global,
    marks: &mut Vec<u8>,
    row: u64,
    world: &World,
    at: u32,
    place: Option<usize>,
) -> Result<(), AllocError>
    ensures { OnOk result (marks.new.items ≡ marks.old.items ++ delivery_mark row world.now at place) }
{
    let Some(member) = world.member(at) else {
        return Ok(());
    };
    let delivered = record_of(member.history(), place);
    put_delivered(alloc, marks, world, member, place_at(at, row), delivered)
}

// The mark of an event.
fn put_event(
    alloc: Global,
    marks: &mut Vec<u8>,
    row: u64,
    world: &World,
    event: &Event,
    outcome: Outcome,
) -> Result<(), AllocError>
    ensures { OnOk result (marks.new.items ≡ marks.old.items ++ event_mark row world.now event.now outcome) }
{
    match outcome {
        Outcome::Submitted(stamp) => put_sent(marks, row, event, stamp),
        Outcome::Received(acknowledged) => put_received(marks, row, event, acknowledged),
        Outcome::Delivered(place) => {
            put_delivery(alloc, marks, row, world, member_of(event), place)
        }
    }
}

// The number of a line, behind where it stands.
#[tactic(auto, unfolding(crate::specs::DiagramText::line_number))]
fn put_line_number(marks: &mut Vec<u8>, line: u64) -> Result<(), AllocError>
    ensures { OnOk result (marks.new.items ≡ marks.old.items ++ line_number line) }
{
    put(
        marks,
        format_args!("\" text-anchor=\"end\" class=\"small\">{line}</text>\n"),
    )
}

// The number of a row's line, at the left.
#[tactic(auto, unfolding(crate::specs::DiagramText::number_mark))]
fn put_number(marks: &mut Vec<u8>, row: u64, line: u64) -> Result<(), AllocError>
    ensures { OnOk result (marks.new.items ≡ marks.old.items ++ number_mark row line) }
{
    let y = place_at(1, row).y.saturating_add(4);
    put_text_at(marks, Place { x: 44, y })?;
    put_line_number(marks, line)
}

// The arrow of a message that was sent.
fn put_arrow_from(
    arrows: &mut Vec<u8>,
    message: Option<&Sent>,
    end: Place,
) -> Result<(), AllocError>
    ensures { OnOk result (arrows.new.items ≡ arrows.old.items ++ arrow_from (option_copied message.entry) end) }
{
    match message {
        None => Ok(()),
        Some(message) => put_arrow(arrows, place_at(message.member, message.row), end),
    }
}

// The arrow of a message that is taken.
fn put_taken_arrow(
    arrows: &mut Vec<u8>,
    sent: &[Sent],
    row: u64,
    event: &Event,
) -> Result<(), AllocError>
    ensures { OnOk result (arrows.new.items ≡ arrows.old.items ++ taken_arrow sent.now row event.now) }
{
    match event {
        Event::Receive { at, from, number } => {
            put_arrow_from(arrows, message_of(sent, *from, *number), place_at(*at, row))
        }
        Event::Submit { .. } | Event::SubmitBatch { .. } | Event::Deliver { .. } => Ok(()),
    }
}

// The arrow of an event, if it is a receipt.
fn put_event_arrow(
    arrows: &mut Vec<u8>,
    sent: &[Sent],
    row: u64,
    event: &Event,
    outcome: Outcome,
) -> Result<(), AllocError>
    ensures { OnOk result (arrows.new.items ≡ arrows.old.items ++ event_arrow sent.now row event.now outcome) }
{
    match outcome {
        Outcome::Received(_) => put_taken_arrow(arrows, sent, row, event),
        Outcome::Submitted(_) | Outcome::Delivered(_) => Ok(()),
    }
}

// Remembers the message of an event, if it sent one.
fn remember(
    sent: &mut Vec<Sent>,
    row: u64,
    event: &Event,
    outcome: Outcome,
) -> Result<(), AllocError>
    ensures { OnOk result (sent.new.items ≡ sent_with sent.old.items row event.now outcome) }
{
    match outcome {
        Outcome::Submitted(_) | Outcome::Received(Some(_)) => {
            sent.push(Sent {
                member: member_of(event),
                row,
            })?;
            Ok(())
        }
        Outcome::Received(None) | Outcome::Delivered(_) => Ok(()),
    }
}

// Whether a number is that of a member.
fn is_known(world: &World, number: u32) -> bool
    ensures { result ≡ is_member world.now number }
{
    match world.member(number) {
        Some(_) => true,
        None => false,
    }
}

// How many members a world has.
fn members_of(world: &World) -> usize
    ensures { result ≡ count_by (is_member world.now) member_numbers }
{
    MEMBER_NUMBERS
        .iter()
        .filter(|number| is_known(world, **number))
        .count()
}

// The cross of a refused event, and why it is refused.
fn put_refused(marks: &mut Vec<u8>, place: Place, refusal: Refusal) -> Result<(), AllocError>
    ensures { OnOk result (marks.new.items ≡ marks.old.items ++ refused_mark place refusal) }
{
    put_cross(marks, place)?;
    put_words(marks, place, &RefusedTeller, &refusal)
}

/// A diagram that grows by a row for each line.
#[derive(Drop)]
pub struct Diagram {
    members: u64,
    rows: u64,
    sent: Vec<Sent>,
    arrows: Vec<u8>,
    marks: Vec<u8>,
}

impl Model for Diagram {
    ghost use Rattle.rbac_pages.specs.DiagramText.{Drawing};

    ghost Value = { Drawing };

    ghost view = { λ d. record { members = d.members; rows = d.rows; sent = d.sent.items; arrows = d.arrows.items; marks = d.marks.items } };
}

impl Diagram {
    /// A diagram of the members of this world, with no row.
    pub fn new(alloc: Global, world: &World) -> Diagram
        ensures { result ≡ begun world.now }
    {
        Diagram {
            members: members_of(world) as u64,
            rows: 0,
            sent: Vec::new(alloc),
            arrows: Vec::new(alloc),
            marks: Vec::new(alloc),
        }
    }

    /// Adds the row of a line whose event was not refused. The world is that after it.
    ///
    /// # Errors
    /// `AllocError` where there is no memory for it. The diagram may lack a part of the row then.
    pub fn add(
        &mut self,
        alloc: Global,
        line: u64,
        world: &World,
        event: &Event,
        outcome: Outcome,
    ) -> Result<(), AllocError>
        ensures { OnOk result (self.new ≡ with_row self.old line world.now event.now outcome) }
    {
        let row = self.rows;
        put_number(&mut self.marks, row, line)?;
        put_event(alloc, &mut self.marks, row, world, event, outcome)?;
        put_event_arrow(&mut self.arrows, &self.sent, row, event, outcome)?;
        remember(&mut self.sent, row, event, outcome)?;
        self.rows = row.saturating_add(1);
        Ok(())
    }

    // The member at which a refusal is marked.
    fn refused_at(&self, event: &Event) -> u32
        ensures { result ≡ refused_at self.now event.now }
    {
        let at = member_of(event);
        if 1 <= at && u64::from(at) <= self.members {
            at
        } else {
            1
        }
    }

    /// Adds the row of a line whose event was refused.
    ///
    /// # Errors
    /// `AllocError` where there is no memory for it. The diagram may lack a part of the row then.
    pub fn add_refused(
        &mut self,
        line: u64,
        event: &Event,
        refusal: Refusal,
    ) -> Result<(), AllocError>
        ensures { OnOk result (self.new ≡ with_refused_row self.old line event.now refusal) }
    {
        let row = self.rows;
        let place = place_at(self.refused_at(event), row);
        put_number(&mut self.marks, row, line)?;
        put_refused(&mut self.marks, place, refusal)?;
        self.rows = row.saturating_add(1);
        Ok(())
    }
}

// Words as they are.
#[derive(Drop)]
struct LegendTeller;

impl Teller<&str, u8> for LegendTeller {
    ghost told_of = { λ teller words. words.now };

    fn put(&self, text: &mut Vec<u8>, words: &&str) -> Result<(), AllocError> {
        text.extend_from_slice(words.as_bytes())
    }
}

// Begins the frame with its width.
#[tactic(auto, unfolding(crate::specs::DiagramText::width_text))]
fn put_width(text: &mut Vec<u8>, width: u64) -> Result<(), AllocError>
    ensures { OnOk result (text.new.items ≡ text.old.items ++ width_text width) }
{
    put(
        text,
        format_args!("<svg xmlns=\"http://www.w3.org/2000/svg\" width=\"{width}"),
    )
}

// The size of the picture.
#[tactic(auto, unfolding(crate::specs::DiagramText::size_text))]
fn put_size(text: &mut Vec<u8>, width: u64, height: u64) -> Result<(), AllocError>
    ensures { OnOk result (text.new.items ≡ text.old.items ++ size_text width height) }
{
    put_width(text, width)?;
    put(text, format_args!("\" height=\"{height}"))
}

// The width of what is seen.
#[tactic(auto, unfolding(crate::specs::DiagramText::view_width))]
fn put_view_width(text: &mut Vec<u8>, width: u64) -> Result<(), AllocError>
    ensures { OnOk result (text.new.items ≡ text.old.items ++ view_width width) }
{
    put(text, format_args!("\" viewBox=\"0 0 {width}"))
}

// Its height, and the end of the frame's mark.
#[tactic(auto, unfolding(crate::specs::DiagramText::view_height))]
fn put_view_height(text: &mut Vec<u8>, height: u64) -> Result<(), AllocError>
    ensures { OnOk result (text.new.items ≡ text.old.items ++ view_height height) }
{
    put(text, format_args!(" {height}\" role=\"img\">\n"))
}

// What is seen.
#[tactic(auto, unfolding(crate::specs::DiagramText::view_text))]
fn put_view(text: &mut Vec<u8>, width: u64, height: u64) -> Result<(), AllocError>
    ensures { OnOk result (text.new.items ≡ text.old.items ++ view_text width height) }
{
    put_view_width(text, width)?;
    put_view_height(text, height)
}

// The frame.
#[tactic(auto, unfolding(crate::specs::DiagramText::frame_text))]
fn put_frame(text: &mut Vec<u8>, width: u64, height: u64) -> Result<(), AllocError>
    ensures { OnOk result (text.new.items ≡ text.old.items ++ frame_text width height) }
{
    put_size(text, width, height)?;
    put_view(text, width, height)
}

// The title, how marks look, and how to read them.
#[tactic(auto, unfolding(crate::specs::DiagramText::style_text))]
fn put_style(text: &mut Vec<u8>) -> Result<(), AllocError>
    ensures { OnOk result (text.new.items ≡ text.old.items ++ style_text) }
{
    text.extend_from_slice(STYLE)
}

// What a mark means.
#[tactic(auto, unfolding(crate::specs::DiagramText::meaning_text))]
fn put_meaning(text: &mut Vec<u8>, place: Place, class: &str, words: &str) -> Result<(), AllocError>
    ensures { OnOk result (text.new.items ≡ text.old.items ++ meaning_text place class.now words.now) }
{
    put_dot(text, place, class)?;
    put_words(text, place, &LegendTeller, &words)
}

// What a cross means.
#[tactic(auto, unfolding(crate::specs::DiagramText::refused_meaning))]
fn put_refused_meaning(text: &mut Vec<u8>, place: Place) -> Result<(), AllocError>
    ensures { OnOk result (text.new.items ≡ text.old.items ++ refused_meaning place) }
{
    put_cross(text, place)?;
    put_words(text, place, &LegendTeller, &"refused")
}

// What the marks of what is sent and taken mean.
#[tactic(auto, unfolding(crate::specs::DiagramText::first_meanings))]
fn put_first_meanings(text: &mut Vec<u8>) -> Result<(), AllocError>
    ensures { OnOk result (text.new.items ≡ text.old.items ++ first_meanings) }
{
    let sends = "a command is submitted, and sent at its stamp";
    put_meaning(text, Place { x: 30, y: 44 }, "sends", sends)?;
    put_meaning(text, Place { x: 318, y: 44 }, "takes", "a message is taken")
}

// What the marks of deliveries mean.
#[tactic(auto, unfolding(crate::specs::DiagramText::other_meanings))]
fn put_other_meanings(text: &mut Vec<u8>) -> Result<(), AllocError>
    ensures { OnOk result (text.new.items ≡ text.old.items ++ other_meanings) }
{
    let delivers = "the least held command is delivered";
    put_meaning(text, Place { x: 450, y: 44 }, "delivers", delivers)?;
    let waits = "nothing is delivered: whom the least held command waits for";
    put_meaning(text, Place { x: 30, y: 64 }, "waits", waits)
}

// The line of a member, with its name above, if there are so many members.
#[derive(Drop)]
struct MemberTeller {
    members: u64,
    rows: u64,
}

// The name of a member, behind where it stands.
#[tactic(auto, unfolding(crate::specs::DiagramText::name_text))]
fn put_name_text(text: &mut Vec<u8>, member: u32) -> Result<(), AllocError>
    ensures { OnOk result (text.new.items ≡ text.old.items ++ name_text member) }
{
    put(
        text,
        format_args!("\" text-anchor=\"middle\" class=\"name\">member {member}</text>\n"),
    )
}

// The name of a member.
#[tactic(auto, unfolding(crate::specs::DiagramText::member_name))]
fn put_name(text: &mut Vec<u8>, place: Place, member: u32) -> Result<(), AllocError>
    ensures { OnOk result (text.new.items ≡ text.old.items ++ member_name place member) }
{
    put_text_at(text, place)?;
    put_name_text(text, member)
}

// The line of a member, with its name above.
#[tactic(auto, unfolding(crate::specs::DiagramText::member_text))]
fn put_member(text: &mut Vec<u8>, member: u32, rows: u64) -> Result<(), AllocError>
    ensures { OnOk result (text.new.items ≡ text.old.items ++ member_text member rows) }
{
    let begin = place_at(member, 0);
    let end = place_at(member, rows);
    let top = begin.y.saturating_sub(16);
    let name = Place {
        x: begin.x,
        y: top.saturating_sub(8),
    };
    put_name(text, name, member)?;
    put_line(
        text,
        Place { x: begin.x, y: top },
        Place {
            x: begin.x,
            y: end.y,
        },
    )?;
    text.extend_from_slice(b"/>\n")
}

impl Teller<u32, u8> for MemberTeller {
    ghost told_of = { λ teller k. member_of_number teller.members teller.rows k };

    fn put(&self, text: &mut Vec<u8>, number: &u32) -> Result<(), AllocError> {
        if u64::from(*number) <= self.members {
            put_member(text, *number, self.rows)
        } else {
            Ok(())
        }
    }
}

impl Diagram {
    /// The whole picture.
    ///
    /// # Errors
    /// `AllocError` where there is no memory for it.
    pub fn picture(&self, alloc: Global) -> Result<Vec<u8>, AllocError>
        ensures { IfOk result (λ text. text.items ≡ picture_text self.now) }
    {
        let low = place_at(1, self.rows).y.saturating_add(24);
        let wide = LEFT.saturating_add(STEP.saturating_mul(self.members));
        let lines = MemberTeller {
            members: self.members,
            rows: self.rows,
        };
        let mut text = Vec::new(alloc);
        put_frame(&mut text, wide.max(720), low)?;
        put_style(&mut text)?;
        put_first_meanings(&mut text)?;
        put_other_meanings(&mut text)?;
        put_refused_meaning(&mut text, Place { x: 450, y: 64 })?;
        put_all(&mut text, &lines, &MEMBER_NUMBERS)?;
        text.extend_from_slice(&self.arrows)?;
        text.extend_from_slice(&self.marks)?;
        text.extend_from_slice(b"</svg>\n")?;
        Ok(text)
    }
}
