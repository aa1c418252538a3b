// Calls of a checker, and their answers.
use constraints::fault::Accepted;
use isa::record::Record;

#[derive(Clone, Copy)]
pub enum Call {
    // one record more
    Take(Record),
    Totals,
    Close,
}

// Of the accepted packets: how many they are, the cycles they take, and how many of them stall.
#[derive(Clone, Copy)]
pub struct Totals {
    pub packets: usize,
    pub cycles: u32,
    pub stalls: usize,
}

#[derive(Clone, Copy)]
pub enum Answer {
    // a record was taken, and so many are open
    Open(usize),
    // a packet was completed, and is accepted
    Accepted(Accepted),
    Totals(Totals),
    Closed(Totals),
}
