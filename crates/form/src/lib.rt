// The form of a listing: its lines read, from a text of any bytes.
#![tactic(auto)]

pub mod lines; // lines.rt: the lines of a listing, stretch by stretch
pub mod reader; // reader.rt: the text, and the place that is reached
pub mod values; // values.rt: what the lines say
