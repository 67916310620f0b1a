//! The marks of a diagram.
ghost use Rattle.std.specs.Prelude.{◌≡◌, ◌++◌, OnOk};
ghost use Rattle.rbac_pages.specs.DiagramText.{arrow_text, circle_right, circle_at, cross_text, dot_text, label_text, line_text, radius_text, stroke_text, text_at, words_at};

use crate::text::{Teller, put};
use std::alloc::AllocError;

/// A place of the picture, in its units: to the right, and down.
#[derive(Clone, Copy, Drop)]
pub(crate) struct Place {
    pub(crate) x: u64,
    pub(crate) y: u64,
}

/// The two ends of a line.
#[tactic(auto, unfolding(crate::specs::DiagramText::line_text))]
pub(crate) fn put_line(text: &mut Vec<u8>, begin: Place, end: Place) -> Result<(), AllocError>
    ensures { OnOk result (text.new.items ≡ text.old.items ++ line_text begin end) }
{
    let (x, y, to_x, to_y) = (begin.x, begin.y, end.x, end.y);
    put(text, format_args!("<line x1=\"{x}\" y1=\"{y}"))?;
    put(text, format_args!("\" x2=\"{to_x}\" y2=\"{to_y}\""))
}

/// An arrow between two places.
#[tactic(auto, unfolding(crate::specs::DiagramText::arrow_text))]
pub(crate) fn put_arrow(text: &mut Vec<u8>, begin: Place, end: Place) -> Result<(), AllocError>
    ensures { OnOk result (text.new.items ≡ text.old.items ++ arrow_text begin end) }
{
    put_line(text, begin, end)?;
    text.extend_from_slice(b" class=\"message\" marker-end=\"url(#tip)\"/>\n")
}

/// Begins a text at a place.
#[tactic(auto, unfolding(crate::specs::DiagramText::text_at))]
pub(crate) fn put_text_at(text: &mut Vec<u8>, place: Place) -> Result<(), AllocError>
    ensures { OnOk result (text.new.items ≡ text.old.items ++ text_at place) }
{
    let Place { x, y } = place;
    put(text, format_args!("<text x=\"{x}\" y=\"{y}"))
}

// Begins a circle so far to the right.
#[tactic(auto, unfolding(crate::specs::DiagramText::circle_right))]
fn put_circle_right(text: &mut Vec<u8>, x: u64) -> Result<(), AllocError>
    ensures { OnOk result (text.new.items ≡ text.old.items ++ circle_right x) }
{
    put(text, format_args!("<circle cx=\"{x}"))
}

// Begins a circle at a place.
#[tactic(auto, unfolding(crate::specs::DiagramText::circle_at))]
fn put_circle_at(text: &mut Vec<u8>, place: Place) -> Result<(), AllocError>
    ensures { OnOk result (text.new.items ≡ text.old.items ++ circle_at place) }
{
    let Place { x, y } = place;
    put_circle_right(text, x)?;
    put(text, format_args!("\" cy=\"{y}"))
}

// The radius and the class of a circle.
#[tactic(auto, unfolding(crate::specs::DiagramText::radius_text))]
fn put_radius(text: &mut Vec<u8>, class: &str) -> Result<(), AllocError>
    ensures { OnOk result (text.new.items ≡ text.old.items ++ radius_text class.now) }
{
    put(text, format_args!("\" r=\"5\" class=\"{class}\"/>\n"))
}

/// A filled dot of this class.
#[tactic(auto, unfolding(crate::specs::DiagramText::dot_text))]
pub(crate) fn put_dot(text: &mut Vec<u8>, place: Place, class: &str) -> Result<(), AllocError>
    ensures { OnOk result (text.new.items ≡ text.old.items ++ dot_text place class.now) }
{
    put_circle_at(text, place)?;
    put_radius(text, class)
}

// A stroke of a cross.
#[tactic(auto, unfolding(crate::specs::DiagramText::stroke_text))]
fn put_stroke(text: &mut Vec<u8>, begin: Place, end: Place) -> Result<(), AllocError>
    ensures { OnOk result (text.new.items ≡ text.old.items ++ stroke_text begin end) }
{
    put_line(text, begin, end)?;
    text.extend_from_slice(b" class=\"refused\"/>\n")
}

/// A cross.
#[tactic(auto, unfolding(crate::specs::DiagramText::cross_text))]
pub(crate) fn put_cross(text: &mut Vec<u8>, place: Place) -> Result<(), AllocError>
    ensures { OnOk result (text.new.items ≡ text.old.items ++ cross_text place) }
{
    let (left, right) = (place.x.saturating_sub(4), place.x.saturating_add(4));
    let (top, low) = (place.y.saturating_sub(4), place.y.saturating_add(4));
    put_stroke(text, Place { x: left, y: top }, Place { x: right, y: low })?;
    put_stroke(text, Place { x: left, y: low }, Place { x: right, y: top })
}

// Begins the words at a place's right.
#[tactic(auto, unfolding(crate::specs::DiagramText::label_text))]
fn put_label(text: &mut Vec<u8>, place: Place) -> Result<(), AllocError>
    ensures { OnOk result (text.new.items ≡ text.old.items ++ label_text place) }
{
    let (x, y) = (place.x.saturating_add(11), place.y.saturating_add(4));
    put_text_at(text, Place { x, y })?;
    text.extend_from_slice(b"\" class=\"small\">")
}

/// The words of a thing at a place's right.
#[tactic(auto, unfolding(crate::specs::DiagramText::words_at))]
pub(crate) fn put_words<T, L: Teller<T, u8>>(
    text: &mut Vec<u8>,
    place: Place,
    teller: &L,
    thing: &T,
) -> Result<(), AllocError>
    ensures { OnOk result (text.new.items ≡ text.old.items ++ words_at place (L.told_of teller.now thing.now)) }
{
    put_label(text, place)?;
    teller.put(text, thing)?;
    text.extend_from_slice(b"</text>\n")
}
