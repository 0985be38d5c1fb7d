#![tactic(auto)]
// The records of an interval sheet (document 01, 'The interval sheet').

// Codes as patterns, for a byte that may be none of them; `Rto` and `Class` are for one that is.
// The Monitoring RTO.
pub const NYISO: u8 = 1;

pub const PJM: u8 = 2;

// A point's type, a PAR's class.
pub const COMMON: u8 = 1;

pub const NON_COMMON: u8 = 2;

// Kind 1. Prices in cents per MWh.
// monitoring_rto stays a byte, no `Rto`: it is the sheet's, which row 8 judges, and the C interface's.
#[repr(C)]
#[derive(Clone, Copy)]
pub struct Head {
    pub name: [u8; 16],
    pub monitoring_rto: u8,
    pub seconds: u16,
    pub monitoring_price: u32,
    pub nonmonitoring_price: u32,
}

// Kind 2. Powers here and below are tenths of a MW.
#[repr(C)]
#[derive(Clone, Copy)]
pub struct Zone {
    pub name: [u8; 16],
    pub load: u32,
    pub losses: u32,
}

// Kind 3. zone: the zone's number, from 1.
#[repr(C)]
#[derive(Clone, Copy)]
pub struct Unit {
    pub name: [u8; 16],
    pub zone: u8,
    pub output: u32,
}

// A point's place: a proxy, or a scheduled line that ends in the zone of that number.
// An enum of its own, no `Option`: document 01 has these two kinds of place.
#[derive(Clone, Copy)]
pub enum Place {
    Proxy,
    Line(u8),
}

// Kind 4. sort: its type.
// wheel_in, wheel_out: energy that enters at one point and leaves at another (document 02, request 5).
// sort stays a byte, no `Class`: it is the sheet's, which row 8 judges.
#[derive(Clone, Copy)]
pub struct Point {
    pub name: [u8; 16],
    pub sort: u8,
    pub place: Place,
    pub import: u32,
    pub export: u32,
    pub wheel_in: u32,
    pub wheel_out: u32,
}

// Kind 5. class stays a byte, no `Class`: it is the sheet's, which row 8 judges, and the C interface's.
#[repr(C)]
#[derive(Clone, Copy)]
pub struct Par {
    pub name: [u8; 16],
    pub class: u8,
    pub actual: i32,
    pub target: i32,
}

// Kind 6. target: 0 the flowgate, k the k-th PAR. Factors are ten-thousandths.
// subject stays a byte, no `Subject`: it is the sheet's, which row 10 judges, and the C interface's.
#[repr(C)]
#[derive(Clone, Copy)]
pub struct Factor {
    pub target: u8,
    pub subject: u8,
    pub index: u16,
    pub factor: i16,
}

// Kind 7. A path between Michigan and Ontario (document 02, request 6). flow: its path market flow.
#[repr(C)]
#[derive(Clone, Copy)]
pub struct Path {
    pub name: [u8; 16],
    pub flow: i32,
    pub factor: i16,
}

// Kind 8. The Lake Erie circulation (document 02, request 6).
#[repr(C)]
#[derive(Clone, Copy)]
pub struct Circulation {
    pub flow: i32,
}

pub mod bodies;
mod codes;

pub use codes::{Class, Rto, Subject};
