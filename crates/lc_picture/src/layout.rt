//! Where strips end. The boxes directly in a box are in strips, from the largest to the smallest. A strip takes one more box as long as the
//! mean of the proportions of its boxes gets no worse (Bederson, Shneiderman and Wattenberg 2002). Lengths are sixteenths of a pixel in a
//! window of 1,400 by 900. A browser divides the space of any window by the numbers alone.

use crate::drawn_box::DrawnBox;
use lc_rows::number_in;
use lc_sheet::Number;
use std::alloc::{AllocError, Global};

const PAGE_WIDTH: u128 = 1_368 * 16;

const PAGE_HEIGHT: u128 = 780 * 16;

/// The height of a label.
const LABEL: u128 = 15 * 16;

/// The space that boxes leave to the boxes around them, on two sides together.
const MARGIN: u128 = 4 * 16;

/// The space for the boxes in a box, and the strip that is being filled.
#[derive(Clone, Copy)]
struct Room {
    width: u128,
    height: u128,
    /// The number of the box, such as lines.
    whole: u128,
    /// The number of the strip.
    strip: u128,
    /// How many boxes the strip still takes.
    left: usize,
}

/// Returns the part of a length that a number has of a whole.
fn part(length: u128, number: u128, whole: u128) -> u128 {
    length.saturating_mul(number) / whole.max(1)
}

/// Returns how many times the longer of two sides is as long as the other, in 256ths.
fn proportion(a: u128, b: u128) -> u128 {
    a.max(b).saturating_mul(256) / a.min(b).max(1)
}

impl Room {
    /// Returns the space inside a box of this size and this number.
    fn inside(width: u128, height: u128, whole: u128) -> Room {
        Room {
            width: width.saturating_sub(MARGIN),
            height: height.saturating_sub(LABEL),
            whole,
            strip: 0,
            left: 0,
        }
    }

    /// Returns the sum of the proportions of boxes with these numbers in a strip, of which `strip` is the sum.
    fn proportions(&self, numbers: &[u128], strip: u128) -> u128 {
        let thickness = part(self.height, strip, self.whole);
        let mut sum = 0_u128;
        for number in numbers {
            sum = sum.saturating_add(proportion(part(self.width, *number, strip), thickness));
        }
        sum
    }

    /// Begins a strip with the first of these numbers.
    fn begin_strip(&mut self, numbers: &[u128]) {
        let mut strip = 0_u128;
        let mut before = 0_u128;
        for count in 0..numbers.len() {
            let more = strip.saturating_add(numbers[count]);
            let proportions = self.proportions(&numbers[..count + 1], more);
            let is_worse = proportions.saturating_mul(count as u128)
                > before.saturating_mul((count as u128).saturating_add(1));
            if count > 0 && is_worse {
                break;
            }
            self.left = count + 1;
            strip = more;
            before = proportions;
        }
        self.strip = strip;
    }
}

/// Returns the number of a box, and those of the boxes beside it that follow in the same box. `after` has all boxes that follow.
fn numbers_beside(
    alloc: Global,
    by: Number,
    drawn: &DrawnBox<'_>,
    after: &[DrawnBox<'_>],
) -> Result<Vec<u128>, AllocError> {
    let mut numbers = Vec::new(alloc);
    numbers.push(number_in(by, drawn.sums))?;
    for next in after {
        if next.depth < drawn.depth {
            return Ok(numbers);
        }
        if next.depth == drawn.depth {
            numbers.push(number_in(by, next.sums))?;
        }
    }
    Ok(numbers)
}

/// Gives a box its space, and returns whether a strip begins with it. `rooms` has the spaces inside the boxes around it.
fn place_box(
    alloc: Global,
    rooms: &mut Vec<Room>,
    by: Number,
    drawn: &DrawnBox<'_>,
    after: &[DrawnBox<'_>],
) -> Result<bool, AllocError> {
    let number = number_in(by, drawn.sums);
    rooms.truncate(drawn.depth);
    let Some(mut around) = rooms.pop() else {
        rooms.push(Room::inside(PAGE_WIDTH, PAGE_HEIGHT, number))?;
        return Ok(false);
    };
    let begins = around.left == 0;
    if begins {
        let numbers = numbers_beside(alloc, by, drawn, after)?;
        around.begin_strip(&numbers);
    }
    around.left = around.left.saturating_sub(1);
    let width = part(around.width, number, around.strip);
    let height = part(around.height, around.strip, around.whole);
    rooms.push(around)?;
    rooms.push(Room::inside(width, height, number))?;
    Ok(begins)
}

/// Returns for each box whether a strip begins with it. The boxes come depth first.
pub(crate) fn strip_beginnings(
    alloc: Global,
    by: Number,
    boxes: &[DrawnBox<'_>],
) -> Result<Vec<bool>, AllocError> {
    let mut begins = Vec::with_capacity(alloc, boxes.len())?;
    let mut rooms = Vec::new(alloc);
    for index in 0..boxes.len() {
        begins.push(place_box(alloc, &mut rooms, by, &boxes[index], &boxes[index + 1..])?)?;
    }
    Ok(begins)
}
