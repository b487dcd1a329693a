// Where the parts of a drawing stand, in pixels. The boxes stand in a row and have one height, so an arrow to the next
// box goes straight to its left side. Any other arrow goes down beside its box, along a lane below all boxes, and up to
// the bottom of the box to which it leads. It has a lane, a way down and a way up of its own, so no two arrows lie on
// one another; they cross at most.
use crate::picture::{NodeBox, Value};
use crate::pieces::{lines_of, longest_line};
use plc_base::NoMemory;
use std::alloc::Global;

/// What is left free around the drawing.
const EDGE: u64 = 12;
/// The height of a line of text.
const LINE: u64 = 18;
/// What is left free between the sides of a box and its texts.
const INSET: u64 = 8;
/// What lies between two boxes, where no arrow goes down there.
const GAP: u64 = 40;
/// What lies between two arrows side by side.
const SPACING: u64 = 8;
/// How many characters the number of a box takes at most, where there are no more than some thousand.
const LONGEST_NUMBER: u64 = 8;

/// Where everything stands.
#[derive(Drop)]
pub(crate) struct Layout {
    pub places: Vec<Place>,
    pub arrows: Vec<Arrow>,
    /// How many lines the longest box has.
    lines: u64,
    /// How many arrows go around the boxes.
    lanes: u64,
    /// The width of the whole drawing.
    pub width: u64,
}

/// Where a box stands, and how many arrows go around the boxes from it and to it.
#[derive(Clone, Copy)]
pub(crate) struct Place {
    pub left: u64,
    pub width: u64,
    leaving: u64,
    arriving: u64,
}

/// Which way an arrow takes. Lanes are counted over the drawing, ways down and up for each box.
#[derive(Clone, Copy)]
pub(crate) enum Way {
    Straight,
    Around { lane: u64, down: u64, up: u64 },
}

/// An arrow from a line of a box to a box.
#[derive(Clone, Copy)]
pub(crate) struct Arrow {
    pub from: usize,
    pub line: u64,
    pub to: usize,
    pub way: Way,
    pub changed: bool,
}

/// So many pixels after others.
fn after(start: u64, count: u64, each: u64) -> u64 {
    start.saturating_add(count.saturating_mul(each))
}

/// A count before it goes up by one.
fn counted(count: &mut u64) -> u64 {
    let before = *count;
    *count = before.saturating_add(1);
    before
}

/// The width of so many characters: 7.2 pixels for each.
fn text_width(characters: u64) -> u64 {
    after(0, characters, 36) / 5
}

/// The width of a box, by its texts alone.
fn box_width(node: &NodeBox) -> u64 {
    after(text_width(longest_line(node).max(LONGEST_NUMBER)), 2, INSET)
}

/// The upper side of a line.
pub(crate) fn line_top(line: u64) -> u64 {
    after(EDGE, line, LINE)
}

/// The middle of a line, from where its arrow goes.
pub(crate) fn line_middle(line: u64) -> u64 {
    after(line_top(line), 1, LINE / 2)
}

/// On which height the text of a line stands.
pub(crate) fn baseline(line: u64) -> u64 {
    after(line_top(line), 1, 13)
}

/// From where the texts of a box begin.
pub(crate) fn text_left(place: Place) -> u64 {
    after(place.left, 1, INSET)
}

/// The right side of a box.
pub(crate) fn right_of(place: Place) -> u64 {
    after(place.left, 1, place.width)
}

/// Where an arrow goes down beside its box.
pub(crate) fn down_at(place: Place, down: u64) -> u64 {
    after(after(right_of(place), 1, EDGE), down, SPACING)
}

/// Where an arrow comes up to its box.
pub(crate) fn up_at(place: Place, up: u64) -> u64 {
    after(after(place.left, 1, EDGE), up, SPACING)
}

impl Layout {
    /// The height of the boxes.
    pub fn box_height(&self) -> u64 {
        after(INSET, self.lines, LINE)
    }

    /// The lower side of the boxes.
    pub fn bottom(&self) -> u64 {
        after(EDGE, 1, self.box_height())
    }

    /// The height of a lane.
    pub fn lane_at(&self, lane: u64) -> u64 {
        after(after(self.bottom(), 2, SPACING), lane, SPACING)
    }

    /// The height of the whole drawing.
    pub fn height(&self) -> u64 {
        after(self.lane_at(self.lanes), 1, EDGE)
    }

    /// The way of a further arrow.
    fn next_way(&mut self, from: usize, to: usize) -> Way {
        if to > from && to - from == 1 {
            return Way::Straight;
        }
        let lane = counted(&mut self.lanes);
        let (mut down, mut up) = (0, 0);
        if let Some(place) = self.places.get_mut(from) {
            down = counted(&mut place.leaving);
        }
        if let Some(place) = self.places.get_mut(to) {
            up = counted(&mut place.arriving);
        }
        Way::Around { lane, down, up }
    }

    /// Adds the arrows of a box.
    fn add_arrows(&mut self, from: usize, node: &NodeBox) -> Result<(), NoMemory> {
        let mut line = (node.names.len() as u64).saturating_add(1);
        for row in node.rows.as_slice() {
            if let Value::Node(to) = row.value {
                let way = self.next_way(from, to);
                self.arrows.push(Arrow {
                    from,
                    line,
                    to,
                    way,
                    changed: row.changed,
                })?;
            }
            line = line.saturating_add(1);
        }
        Ok(())
    }

    /// Adds a box, whose place is still to be found.
    fn add_box(&mut self, node: &NodeBox) -> Result<(), NoMemory> {
        self.places.push(Place {
            left: 0,
            width: box_width(node),
            leaving: 0,
            arriving: 0,
        })?;
        self.lines = lines_of(node).max(self.lines);
        Ok(())
    }

    /// Adds all boxes, and then their arrows.
    fn add_all(&mut self, boxes: &[NodeBox]) -> Result<(), NoMemory> {
        for node in boxes {
            self.add_box(node)?;
        }
        for (number, node) in boxes.iter().enumerate() {
            self.add_arrows(number, node)?;
        }
        Ok(())
    }

    /// Finds the places of the boxes from left to right, each as wide as its texts and the arrows that come up to it,
    /// and with the arrows that go down beside it.
    fn set_out(&mut self) {
        let mut left = EDGE;
        for place in self.places.iter_mut() {
            place.left = left;
            place.width = place.width.max(after(2 * EDGE, place.arriving, SPACING));
            left = after(after(right_of(*place), 1, GAP), place.leaving, SPACING);
        }
        self.width = left;
    }
}

/// Where these boxes and their arrows stand.
pub(crate) fn layout_of(alloc: Global, boxes: &[NodeBox]) -> Result<Layout, NoMemory> {
    let mut layout = Layout {
        places: Vec::new(alloc),
        arrows: Vec::new(alloc),
        lines: 0,
        lanes: 0,
        width: 0,
    };
    layout.add_all(boxes)?;
    layout.set_out();
    Ok(layout)
}
