// The line that is printed of a slot, as text or as JSON.
#![tactic(auto)]

mod fields;
mod line;

pub use line::slot_line;

// How a line is written: `name=value`, or an object of JSON.
#[derive(Clone, Copy)]
pub enum Form {
    Plain,
    Json,
}

// Which receiver a slot is of: the only one, or one of a downlink's and an uplink's.
#[derive(Clone, Copy)]
pub enum Link {
    Alone,
    Down,
    Up,
}

// How slots are printed.
#[derive(Clone, Copy)]
pub struct Style {
    pub form: Form,
    pub has_bits: bool,
    pub link: Link,
}
