// The tags with numbers in them, as variants, so that nothing but a number can stand there.
ghost use Rattle.std.specs.Prelude.{◌≡◌, ◌++◌, ◌∷◌, [], IfOk, OnOk, codes, decimal, if◌then◌else◌, map};
ghost use Rattle.plc_html.specs.Tags.{arrow_text, between, field_text, head_text, name_text, tag_text};

use std::alloc::{AllocError, Global};

/// A place of a drawing.
#[derive(Clone, Copy)]
pub struct At {
    pub across: u64,
    pub down: u64,
}

/// Where an arrow around boxes goes: from its box to the right, down or up to a lane, along it, and to the other box.
#[derive(Clone, Copy)]
pub struct Detour {
    pub from: At,
    pub right: u64,
    pub lane: u64,
    pub to: At,
}

/// A tag with numbers in it. Lengths and places are those of a drawing.
#[derive(Clone, Copy)]
pub enum Tag {
    /// The beginning of a link to a line of the file.
    LinkToLine { number: u64 },
    /// The beginning of a link to a line of the schedule.
    LinkToEntry { number: u64 },
    /// The beginning of a link to a point.
    LinkToPoint { number: u64 },
    /// The beginning of the row of a line of the file.
    RowOfLine { number: u64 },
    /// The same of the line of which is spoken.
    RowOfLineHere { number: u64 },
    /// The beginning of the row of a line of the schedule.
    RowOfEntry { number: u64 },
    /// The beginning of what is said of a point.
    DetailsOfPoint { number: u64 },
    /// The beginning of a drawing.
    Svg { width: u64, height: u64 },
    /// A box.
    Frame { at: At, width: u64, height: u64 },
    /// A line from left to right in a box.
    Rule { at: At, right: u64 },
    /// The beginning of a text at the head of a box.
    NameAt { at: At, changed: bool },
    /// The beginning of a text below it.
    FieldAt { at: At, changed: bool },
    /// The line of an arrow to the next box.
    Straight { at: At, right: u64, changed: bool },
    /// The line of an arrow around boxes.
    Around { by: Detour, changed: bool },
    /// The head of an arrow to the right, by its tip.
    HeadRight { at: At, changed: bool },
    /// The head of an arrow upwards, by its tip.
    HeadUp { at: At, changed: bool },
}

/// Adds a text and a number in decimal.
fn push_part(alloc: Global, out: &mut Vec<u8>, text: &str, number: u64) -> Result<(), AllocError>
    ensures { OnOk result (out.new.items ≡ out.old.items ++ text.now ++ decimal number) }
{
    let digits = number.to_string(alloc)?;
    out.extend_from_slice(text.as_bytes())?;
    out.extend_from_slice(digits.as_bytes())
}

/// Texts, each with a number behind it, and the last text.
fn between(alloc: Global, parts: &[(&str, u64)], end: &str) -> Result<Vec<u8>, AllocError>
    ensures { IfOk result (λ text. text.items ≡ between (map (λ part. (part.0.now, part.1)) parts.now) end.now) }
{
    let mut out = Vec::new(alloc);
    for part in parts {
        push_part(alloc, &mut out, part.0, part.1)?;
    }
    out.extend_from_slice(end.as_bytes())?;
    Ok(out)
}

/// One of two texts.
fn either(changed: bool, yes: &'static str, no: &'static str) -> &'static str
    ensures { result.now ≡ if changed then yes.now else no.now }
{
    if changed { yes } else { no }
}

/// How the line of an arrow begins.
fn arrow_text(changed: bool) -> &'static str
    ensures { result.now ≡ arrow_text changed }
{
    either(
        changed,
        "<path class=\"arrow changed\" fill=\"none\" stroke=\"currentColor\" d=\"M",
        "<path class=\"arrow\" fill=\"none\" stroke=\"currentColor\" d=\"M",
    )
}

/// How a text at the head of a box begins.
fn name_text(changed: bool) -> &'static str
    ensures { result.now ≡ name_text changed }
{
    either(
        changed,
        "<text class=\"head changed\" x=\"",
        "<text class=\"head\" x=\"",
    )
}

/// How a text below it begins.
fn field_text(changed: bool) -> &'static str
    ensures { result.now ≡ field_text changed }
{
    either(
        changed,
        "<text class=\"row changed\" x=\"",
        "<text class=\"row\" x=\"",
    )
}

/// How the head of an arrow begins.
fn head_text(changed: bool) -> &'static str
    ensures { result.now ≡ head_text changed }
{
    either(
        changed,
        "<path class=\"arrowhead changed\" d=\"M",
        "<path class=\"arrowhead\" d=\"M",
    )
}

/// The text of a tag that has its number at its end.
fn numbered(alloc: Global, text: &str, number: u64) -> Result<Vec<u8>, AllocError>
    ensures { IfOk result (λ out. out.items ≡ between ((text.now, number) ∷ []) (codes "\">")) }
{
    between(alloc, &[(text, number)], "\">")
}

/// The text of a drawing's tag.
fn drawing_text(alloc: Global, width: u64, height: u64) -> Result<Vec<u8>, AllocError>
    ensures { IfOk result (λ text. text.items ≡ tag_text (Tag.Svg width height)) }
{
    let parts = [
        (
            "<svg class=\"picture\" fill=\"currentColor\" width=\"",
            width,
        ),
        ("\" height=\"", height),
        ("\" viewBox=\"0 0 ", width),
        (" ", height),
    ];
    between(alloc, &parts, "\">")
}

/// The text of a box.
fn frame_text(alloc: Global, at: At, width: u64, height: u64) -> Result<Vec<u8>, AllocError>
    ensures { IfOk result (λ text. text.items ≡ tag_text (Tag.Frame at width height)) }
{
    let parts = [
        ("<rect class=\"box\" x=\"", at.across),
        ("\" y=\"", at.down),
        ("\" width=\"", width),
        ("\" height=\"", height),
    ];
    between(alloc, &parts, "\" fill=\"none\" stroke=\"currentColor\"/>")
}

/// The text of a line in a box.
fn rule_text(alloc: Global, at: At, right: u64) -> Result<Vec<u8>, AllocError>
    ensures { IfOk result (λ text. text.items ≡ tag_text (Tag.Rule at right)) }
{
    let parts = [
        ("<path class=\"box\" d=\"M", at.across),
        (" ", at.down),
        ("H", right),
    ];
    between(alloc, &parts, "\" fill=\"none\" stroke=\"currentColor\"/>")
}

/// The text of a tag that begins a text at a place.
fn placed(alloc: Global, text: &str, at: At) -> Result<Vec<u8>, AllocError>
    ensures { IfOk result (λ out. out.items
        ≡ between ((text.now, at.across) ∷ (codes "\" y=\"", at.down) ∷ []) (codes "\">")) }
{
    between(alloc, &[(text, at.across), ("\" y=\"", at.down)], "\">")
}

/// The text of an arrow to the next box.
fn straight_text(alloc: Global, at: At, right: u64, changed: bool) -> Result<Vec<u8>, AllocError>
    ensures { IfOk result (λ text. text.items ≡ tag_text (Tag.Straight at right changed)) }
{
    let parts = [
        (arrow_text(changed), at.across),
        (" ", at.down),
        ("H", right),
    ];
    between(alloc, &parts, "\"/>")
}

/// The text of an arrow around boxes.
fn around_text(alloc: Global, by: Detour, changed: bool) -> Result<Vec<u8>, AllocError>
    ensures { IfOk result (λ text. text.items ≡ tag_text (Tag.Around by changed)) }
{
    let parts = [
        (arrow_text(changed), by.from.across),
        (" ", by.from.down),
        ("H", by.right),
        ("V", by.lane),
        ("H", by.to.across),
        ("V", by.to.down),
    ];
    between(alloc, &parts, "\"/>")
}

/// The text of the head of an arrow.
fn tip_text(alloc: Global, at: At, changed: bool, end: &str) -> Result<Vec<u8>, AllocError>
    ensures { IfOk result (λ text. text.items
        ≡ between ((head_text changed, at.across) ∷ (codes " ", at.down) ∷ []) end.now) }
{
    between(
        alloc,
        &[(head_text(changed), at.across), (" ", at.down)],
        end,
    )
}

/// The text of a tag.
pub(crate) fn tag_text(alloc: Global, tag: Tag) -> Result<Vec<u8>, AllocError>
    ensures { IfOk result (λ text. text.items ≡ tag_text tag) }
{
    match tag {
        Tag::LinkToLine { number } => numbered(alloc, "<a href=\"#L", number),
        Tag::LinkToEntry { number } => numbered(alloc, "<a href=\"#S", number),
        Tag::LinkToPoint { number } => numbered(alloc, "<a href=\"#p", number),
        Tag::RowOfLine { number } => numbered(alloc, "<tr id=\"L", number),
        Tag::RowOfLineHere { number } => numbered(alloc, "<tr class=\"here\" id=\"L", number),
        Tag::RowOfEntry { number } => numbered(alloc, "<tr id=\"S", number),
        Tag::DetailsOfPoint { number } => numbered(alloc, "<details id=\"p", number),
        Tag::Svg { width, height } => drawing_text(alloc, width, height),
        Tag::Frame { at, width, height } => frame_text(alloc, at, width, height),
        Tag::Rule { at, right } => rule_text(alloc, at, right),
        Tag::NameAt { at, changed } => placed(alloc, name_text(changed), at),
        Tag::FieldAt { at, changed } => placed(alloc, field_text(changed), at),
        Tag::Straight { at, right, changed } => straight_text(alloc, at, right, changed),
        Tag::Around { by, changed } => around_text(alloc, by, changed),
        Tag::HeadRight { at, changed } => tip_text(alloc, at, changed, "l-8 -4v8z\"/>"),
        Tag::HeadUp { at, changed } => tip_text(alloc, at, changed, "l-4 8h8z\"/>"),
    }
}
