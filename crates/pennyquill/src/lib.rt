// The library for C and for whatever calls C: numbers of 32 and 64 bits, byte slices, and structs of numbers. Each function finds the
// kind by its code, takes a date's number apart, makes one call of the crates below, and crosses its answer. None has a requirement.
#![tactic(auto)]

mod books;
mod crossing;
mod dates;
mod days;
mod gaps;
mod hours;
mod leagues;
mod listings;
mod tables;
mod texts;
mod versions;

// Refusal 0: value is the answer, a date's number, a length, a room, a count or a place. At 11 and 21 value is the record's place, and
// at every other refusal 0.
// Kept (point 1): (a) the C interface: the header has the refusal's number and the value in two fields.
#[repr(C)]
#[derive(Clone, Copy)]
pub struct PqAnswer {
    pub refusal: u32,
    pub value: u32,
}

// The same with a signed value: a date's number as D and H write it, days, hours, blocks of hours, or an order.
#[repr(C)]
#[derive(Clone, Copy)]
pub struct PqNumber {
    pub refusal: u32,
    pub value: i32,
}

// A record of a book, whose field is 0 for none and in version 1; or an entry of a field table, whose value is 0.
#[repr(C)]
#[derive(Clone, Copy)]
pub struct PqRecord {
    pub refusal: u32,
    pub kind: u32,
    pub value: u32,
    pub field: u32,
}

// A number looked up in a field table: the kind that was used, the date, and 1 where it was guessed. At a refusal the others are 0.
#[repr(C)]
#[derive(Clone, Copy)]
pub struct PqLookup {
    pub refusal: u32,
    pub kind: u32,
    pub value: u32,
    pub guessed: u32,
}
