// The checker's calls.
ghost use Rattle.std.specs.Prelude.{◌≡◌, false, List, [], length, ◌≢◌, MatchResult};
ghost use Rattle.admission.specs.declared.instruction.Instruction.{Instruction};
ghost use Rattle.constraints.specs.Faults.{AcceptedAs, RefusedWith};
ghost use Rattle.flight.specs.Kept.{StandsFor};
ghost use Rattle.book.specs.declared.calls.Call.TheVariants.{Take, Close};
ghost use Rattle.book.specs.Books.{Book, Standing, totals, opened, opening, SaysTake, after_take, accepting};
ghost use Rattle.checker.specs.Stands.{rules_of, KeepsRules, Keeps, Stands, Unchanged, Serves, Complete, Verdict, after_packet};

use crate::checker::{Checker, Opened, State};
use admission::admit::admit;
use admission::instruction::Instruction;
use book::calls::{Answer, Call, Totals};
use bounded::list::Bounded;
use constraints::fault::{Accepted, Fault, Place};
use flight::history::History;
use flight::issued::UNUSED;
use isa::record::{Flags, Record};
use isa::refusal::Refusal;
use isa::repertoire::Repertoire;
use runs::valuations::Valuations;
use verdict::judge::judge;

impl<R: Repertoire> Checker<R> {
    // Of the accepted packets, in any state.
    pub fn totals(&self) -> Totals
        ensures totals { (b : Book) → Stands self.now b → result ≡ totals b }
    {
        Totals {
            packets: self.history.packets(),
            cycles: self.history.cycle(),
            stalls: self.stalls,
        }
    }

    // A refusal of the call at hand, where the next record would stand.
    fn refused(&self, refusal: Refusal) -> Fault
        ensures reason { result.refusal ≡ refusal }
        ensures standing { (b : Book) → Stands self.now b → Standing b result }
    {
        let place = Place {
            packet: self.history.packets(),
            slot: self.gathered.len(),
        };
        Fault::at(refusal, place)
    }

    // The verdict on the open records as a packet, which joins the accepted ones unless it is refused.
    fn judged(&mut self) -> Result<Accepted, Fault>
        ensures verdict { (b : Book) (xs : List Instruction) → Complete self.old b xs → MatchResult result (λ a. AcceptedAs self.old.history.lawful self.old.history.lawful b.accepted xs a × Keeps self.new (accepting b xs a)) (λ f. RefusedWith self.old.history.lawful self.old.history.lawful b.accepted xs f × Keeps self.new b) }
        ensures rules { KeepsRules self.old self.new }
    {
        let accepted = judge(&self.history, &self.gathered)?;
        // there is room, since a packet is begun only where there is
        let _ = self.history.accept(&self.gathered);
        self.stalls = self.stalls.saturating_add(usize::from(accepted.stall));
        Ok(accepted)
    }

    // The packet that is complete: accepted or refused, and no record is open then.
    fn complete(&mut self) -> Result<Answer, Fault>
        ensures verdict { (b : Book) (xs : List Instruction) → Complete self.old b xs → Verdict self.old.history.lawful b xs result × Stands self.new (after_packet b xs result) }
        ensures rules { KeepsRules self.old self.new }
    {
        let verdict = self.judged();
        self.gathered.clear();
        self.state = State::Idle;
        Ok(Answer::Accepted(verdict?))
    }

    // The record joins the open ones, unless it does not fit or would leave eight open; without p it completes the packet.
    fn add(&mut self, record: Record) -> Result<Answer, Fault>
        ensures serves { (b : Book) → Stands self.old b → b.closed ≡ false → (length b.accepted ≡ 512 → b.held ≢ []) → SaysTake (rules_of (R.Repertoire.map self.old.repertoire) self.old) b «record» result × Stands self.new (after_take (rules_of (R.Repertoire.map self.old.repertoire) self.old) b «record» result) × Unchanged self.old self.new result }
        ensures rules { KeepsRules self.old self.new }
    {
        let instruction = match admit(&self.repertoire, record) {
            Ok(instruction) => instruction,
            Err(refusal) => return Err(self.refused(refusal)),
        };
        // at most seven records are open, so one more has room
        let gathered = self.gathered.len();
        if !Flags::from(record.flags).p {
            let _ = self.gathered.push(instruction);
            return self.complete();
        }
        if gathered >= 7 {
            return Err(self.refused(Refusal::PacketTooLong));
        }
        let _ = self.gathered.push(instruction);
        self.state = State::Gathering;
        Ok(Answer::Open(gathered + 1))
    }

    // One call, by the checker's state.
    pub fn call(&mut self, call: Call) -> Result<Answer, Fault>
        ensures serves { Serves (R.Repertoire.map self.old.repertoire) self.old call self.new result }
        ensures rules { KeepsRules self.old self.new }
    {
        match (self.state, call) {
            (_, Call::Totals) => Ok(Answer::Totals(self.totals())),
            (State::Closed, _) => Err(self.refused(Refusal::Closed)),
            (State::Idle, Call::Take(_)) if self.history.packets() >= 512 => {
                Err(self.refused(Refusal::ScheduleFull))
            }
            (State::Idle | State::Gathering, Call::Take(record)) => self.add(record),
            (State::Gathering, Call::Close) => Err(self.refused(Refusal::RecordsOpen)),
            (State::Idle, Call::Close) => {
                let totals = self.totals();
                self.state = State::Closed;
                Ok(Answer::Closed(totals))
            }
        }
    }

    // One record more.
    pub fn take(&mut self, record: Record) -> Result<Answer, Fault>
        ensures serves { Serves (R.Repertoire.map self.old.repertoire) self.old (Take «record») self.new result }
        ensures rules { KeepsRules self.old self.new }
    {
        self.call(Call::Take(record))
    }

    // No record more.
    pub fn close(&mut self) -> Result<Answer, Fault>
        ensures serves { Serves (R.Repertoire.map self.old.repertoire) self.old Close self.new result }
        ensures rules { KeepsRules self.old self.new }
    {
        self.call(Call::Close)
    }

    // Nothing accepted or open, in a state.
    fn begun(repertoire: R, lawful: Valuations, state: State) -> Checker<R>
        ensures begun { (result.repertoire ≡ repertoire) × (result.state ≡ state) × (result.gathered ≡ []) × (result.stalls ≡ 0) × (result.history.lawful ≡ lawful) × StandsFor result.history result.history.lawful [] }
    {
        Checker {
            repertoire,
            state,
            history: History::open(lawful, lawful),
            gathered: Bounded::new(UNUSED.issued.instruction),
            stalls: 0,
        }
    }

    // A new checker, on a repertoire and a lawful set; closed at once where no valuation is lawful.
    pub fn open(repertoire: R, lawful: Valuations) -> Opened<R>
        ensures refused { result.refused ≡ opening lawful }
        ensures stands { Stands result.checker (opened lawful) }
        ensures rules { (result.checker.repertoire ≡ repertoire) × (result.checker.history.lawful ≡ lawful) }
    {
        if lawful != Valuations::NONE {
            return Opened {
                checker: Checker::begun(repertoire, lawful, State::Idle),
                refused: None,
            };
        }
        let place = Place { packet: 0, slot: 0 };
        Opened {
            checker: Checker::begun(repertoire, lawful, State::Closed),
            refused: Some(Fault::at(Refusal::LawfulSetEmpty, place)),
        }
    }
}
