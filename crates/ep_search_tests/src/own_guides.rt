//! Guides that only tests have.

use ep_guide::{Guide, View};
use std::cell::RefCell;
use std::rc::Rc;

/// Scores heavy states first.
#[derive(Drop)]
pub struct Heaviest {
    asked: u64,
}

impl Heaviest {
    pub fn new() -> Heaviest {
        Heaviest { asked: 0 }
    }
}

impl Guide for Heaviest {
    ghost asked = { λ g. g.asked };

    fn score(&mut self, view: &View) -> u64 {
        self.asked = self.asked.saturating_add(1);
        u64::MAX - u64::from(view.depth)
    }

    fn met(&mut self, _weight: u32) {}
}

/// What a guide is told: a state, or that one of this weight reaches the goal. What a view calls the depth is the weight.
#[derive(Clone, Copy)]
pub enum Record {
    Seen(View),
    Met(u32),
}

impl Record {
    pub fn is(&self, other: &Record) -> bool {
        match (self, other) {
            (Record::Seen(one), Record::Seen(two)) => {
                one.depth == two.depth
                    && one.worlds == two.worlds
                    && one.designated == two.designated
                    && one.unmet == two.unmet
                    && one.parts == two.parts
            }
            (Record::Met(one), Record::Met(two)) => *one == *two,
            _ => false,
        }
    }
}

/// Which states a recorder scores first.
#[derive(Clone, Copy)]
pub enum Order {
    Lightest,
    Heaviest,
    /// The one that was stored first.
    Oldest,
}

/// Scores in an order, and records its calls while there is room.
#[derive(Drop)]
pub struct Recorder {
    asked: u64,
    order: Order,
    records: Rc<RefCell<Vec<Record>>>,
}

impl Recorder {
    pub fn new(order: Order, records: Rc<RefCell<Vec<Record>>>) -> Recorder {
        Recorder {
            asked: 0,
            order,
            records,
        }
    }
}

fn keep(records: &RefCell<Vec<Record>>, record: Record) {
    if let Ok(mut kept) = records.try_borrow_mut() {
        if kept.len() < kept.capacity() {
            let _kept = kept.push(record);
        }
    }
}

impl Guide for Recorder {
    ghost asked = { λ g. g.asked };

    fn score(&mut self, view: &View) -> u64 {
        self.asked = self.asked.saturating_add(1);
        keep(&self.records, Record::Seen(*view));
        let weight = u64::from(view.depth);
        match self.order {
            Order::Lightest => weight,
            Order::Heaviest => u64::MAX - weight,
            Order::Oldest => 0,
        }
    }

    fn met(&mut self, weight: u32) {
        keep(&self.records, Record::Met(weight));
    }
}
