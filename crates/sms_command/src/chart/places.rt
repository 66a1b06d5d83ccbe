//! Where things stand in a chart, in pixels.

use crate::chart::rows::Row;
use std::alloc::{AllocError, Global};

/// The room beside the outer lifelines, for what happens there.
const MARGIN: u64 = 200;

/// The room between two lifelines.
const BETWEEN: u64 = 240;

/// Where the lifelines begin.
pub const TOP: u64 = 52;

/// How far the first packet of an event starts below it, and each further one below that.
const STEP: u64 = 16;

/// Where the lifelines and the events stand.
#[derive(Drop)]
pub struct Places {
    phones: usize,
    /// Where each event happens, from above.
    heights: Vec<u64>,
    /// Where the lifelines end.
    pub bottom: u64,
}

impl Places {
    /// The places of as many phones and of these events.
    pub fn new(alloc: Global, phones: usize, rows: &[Row]) -> Result<Places, AllocError> {
        let mut heights = Vec::with_capacity(alloc, rows.len())?;
        let mut height = TOP;
        for row in rows {
            height = height.saturating_add(24);
            heights.push(height)?;
            height = height.saturating_add(STEP.saturating_mul(row.packets as u64));
            height = height.saturating_add(12);
        }
        Ok(Places {
            phones,
            heights,
            bottom: height.saturating_add(16),
        })
    }

    /// How many phones stand to the left of the centre.
    fn left(&self) -> usize {
        self.phones.div_ceil(2)
    }

    /// The column of a phone, counted from 0.
    fn column(&self, phone: usize) -> usize {
        if phone < self.left() {
            phone
        } else {
            phone.saturating_add(1)
        }
    }

    /// Whether a phone stands to the left of the centre.
    pub fn is_left(&self, phone: usize) -> bool {
        phone < self.left()
    }

    /// Where the lifeline of a phone stands, from the left.
    pub fn phone(&self, phone: usize) -> u64 {
        across(self.column(phone))
    }

    /// Where the lifeline of the centre stands.
    pub fn centre(&self) -> u64 {
        across(self.left())
    }

    /// How wide the chart is.
    pub fn width(&self) -> u64 {
        across(self.phones).saturating_add(MARGIN)
    }

    /// Where an event happens, from above.
    pub fn event(&self, row: usize) -> u64 {
        self.heights.get(row).copied().unwrap_or(TOP)
    }

    /// Where a packet of an event starts.
    pub fn start(&self, row: usize, place: usize) -> u64 {
        let down = STEP.saturating_mul((place as u64).saturating_add(1));
        self.event(row).saturating_add(down)
    }
}

/// Where the lifeline of a column stands, from the left.
fn across(column: usize) -> u64 {
    MARGIN.saturating_add(BETWEEN.saturating_mul(column as u64))
}
