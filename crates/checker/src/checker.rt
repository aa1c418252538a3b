// The checker's state.
use constraints::fault::Fault;
use flight::history::History;
use flight::issued::Packet;
use isa::repertoire::Repertoire;

pub mod calls;

// The states of the rules. The open instructions stay in place beside them.
#[derive(Clone, Copy)]
pub enum State {
    // no record is open
    Idle,
    // records of a packet are open
    Gathering,
    // nothing is taken any more
    Closed,
}

// What is kept of a schedule as its records come in.
#[derive(Drop)]
pub struct Checker<R: Repertoire> {
    repertoire: R,
    state: State,
    history: History,
    // the open instructions
    gathered: Packet,
    // how many of the accepted packets stall
    stalls: usize,
}

// A new checker, and why it is closed at once, if it is. A refused one is there all the same, so this is no `Result`.
#[derive(Drop)]
pub struct Opened<R: Repertoire> {
    pub checker: Checker<R>,
    pub refused: Option<Fault>,
}
