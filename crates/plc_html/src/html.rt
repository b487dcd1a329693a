// The parts of a page are written from their beginning to their end. Whatever a caller passes, what is written are
// listed tags, and text in which no byte is markup: that is the type's invariant, so that no caller owes a proof of it.
ghost use Rattle.std.specs.Prelude.{◌≡◌, ◌++◌, ◌==◌, [], Some, IfOk, OnOk, decimal, map};
ghost use Rattle.std.specs.List.{flat_map, slice_split};
ghost use Rattle.plc_html.specs.Escaping.{escaped, escaped_byte};
ghost use Rattle.plc_html.specs.Fragments.{IsFragment, listed_tag, marked, marked_part, marked_parts};
ghost use Rattle.plc_html.specs.Tags.{tags, tag_text};

use crate::escaping::push_escaped;
use crate::tag::{Tag, tag_text};
use crate::tags::listed_tag;
use plc_base::NoMemory;
use std::alloc::{AllocError, Global};
use std::marker::Model;

/// What was written of a part of a page.
#[derive(Drop)]
pub struct Html {
    alloc: Global,
    bytes: Vec<u8>,
}

impl Model for Html {
    ghost use Rattle.std.specs.Prelude.{ℕ, List};
    ghost use Rattle.plc_html.specs.Fragments.{IsFragment};

    ghost Value = { List ℕ };

    ghost view = { λ h. h.bytes.items };

    ghost invariant = { λ h. IsFragment h.bytes.items };
}

/// The text before the first `<` of a piece, and the text behind each.
fn parts_of(alloc: Global, piece: &'static str) -> Result<Vec<&'static str>, AllocError>
    ensures { IfOk result (λ parts. map (λ part. part.now) parts.items ≡ slice_split (λ byte. byte == 60) piece.now) }
{
    piece.split('<').collect(alloc)
}

impl Html {
    /// An empty part. It takes no memory.
    pub fn new(alloc: Global) -> Html
        ensures { result ≡ [] }
    {
        Html {
            alloc,
            bytes: Vec::new(alloc),
        }
    }

    /// Where new lists are made.
    pub fn alloc(&self) -> Global {
        self.alloc
    }

    /// Adds what stands for a byte of a text.
    fn byte(&mut self, byte: u8) -> Result<(), NoMemory>
        ensures { OnOk result (self.new ≡ self.old ++ escaped_byte byte) }
    {
        push_escaped(&mut self.bytes, byte)?;
        Ok(())
    }

    /// Adds the listed tag that begins at a `<` which is followed by this text.
    fn listed(&mut self, tag: &[u8], _text: &[u8]) -> Result<(), NoMemory>
        requires { listed_tag tags _text.now ≡ Some tag.now }
        ensures { OnOk result (self.new ≡ self.old ++ tag.now) }
    {
        self.bytes.extend_from_slice(tag)?;
        Ok(())
    }

    /// Adds a text, escaped. The one error is that memory runs out.
    pub fn text(&mut self, bytes: &[u8]) -> Result<(), NoMemory>
        ensures { OnOk result (self.new ≡ self.old ++ escaped bytes.now) }
    {
        for byte in bytes {
            self.byte(*byte)?;
        }
        Ok(())
    }

    /// Adds what stands for a `<` and the text behind it, up to the next one.
    fn part(&mut self, text: &[u8]) -> Result<(), NoMemory>
        ensures { OnOk result (self.new ≡ self.old ++ marked_part text.now) }
    {
        match listed_tag(text) {
            Some(tag) => {
                self.listed(tag, text)?;
                self.text(text.get(tag.len().saturating_sub(1)..).unwrap_or(&[]))
            }
            None => {
                self.text(b"<")?;
                self.text(text)
            }
        }
    }

    /// Adds what stands for `<` and a text, one after another.
    fn parts(&mut self, texts: &[&str]) -> Result<(), NoMemory>
        ensures { OnOk result (self.new ≡ self.old ++ flat_map marked_part (map (λ t. t.now) texts.now)) }
    {
        for text in texts {
            self.part(text.as_bytes())?;
        }
        Ok(())
    }

    /// Adds the text before the first `<`, and what each `<` begins.
    fn all_parts(&mut self, texts: &[&str]) -> Result<(), NoMemory>
        ensures { OnOk result (self.new ≡ self.old ++ marked_parts (map (λ t. t.now) texts.now)) }
    {
        match texts {
            [first, others @ ..] => {
                self.text(first.as_bytes())?;
                self.parts(others)
            }
            [] => Ok(()),
        }
    }

    /// Adds markup that stands in the program: listed tags without numbers, and text between them. What is no such tag
    /// is text. The one error is that memory runs out.
    pub fn markup(&mut self, piece: &'static str) -> Result<(), NoMemory>
        ensures { OnOk result (self.new ≡ self.old ++ marked piece.now) }
    {
        let texts = parts_of(self.alloc, piece)?;
        self.all_parts(&texts)
    }

    /// Adds a tag with numbers. The one error is that memory runs out.
    pub fn tag(&mut self, tag: Tag) -> Result<(), NoMemory>
        ensures { OnOk result (self.new ≡ self.old ++ tag_text tag) }
    {
        let text = tag_text(self.alloc, tag)?;
        self.bytes.extend_from_slice(&text)?;
        Ok(())
    }

    /// Adds a number in decimal. The one error is that memory runs out.
    pub fn number(&mut self, number: u64) -> Result<(), NoMemory>
        ensures { OnOk result (self.new ≡ self.old ++ decimal number) }
    {
        let digits = number.to_string(self.alloc)?;
        self.bytes.extend_from_slice(digits.as_bytes())?;
        Ok(())
    }

    /// Adds markup, as `markup` does, and a number after it. The one error is that memory runs out.
    pub fn numbered(&mut self, piece: &'static str, number: u64) -> Result<(), NoMemory>
        ensures { OnOk result (self.new ≡ self.old ++ marked piece.now ++ decimal number) }
    {
        self.markup(piece)?;
        self.number(number)
    }

    /// Adds what was written of another part. The one error is that memory runs out.
    pub fn append(&mut self, other: Html) -> Result<(), NoMemory>
        ensures { OnOk result (self.new ≡ self.old ++ other) }
    {
        self.bytes.extend_from_slice(&other.bytes)?;
        Ok(())
    }

    /// All that was written.
    pub(crate) fn bytes(&self) -> &[u8]
        ensures all { result.now ≡ self.now }
        ensures fragment { IsFragment result.now }
    {
        &self.bytes
    }
}
