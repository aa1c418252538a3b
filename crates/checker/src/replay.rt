// Lists of calls, put to a new checker.
ghost use Rattle.std.specs.Prelude.{◌≡◌, ◌+◌, ◌≤◌, true, length, is_ok, IfOk, vec_len, vec_capacity, MatchResult, OnOk};
ghost use Rattle.book.specs.Books.{Rules, Book, opened, opening};
ghost use Rattle.decision.specs.Total.{SomeAnswer};
ghost use Rattle.checker.specs.Stands.{rules_of, rules_on, Stands};
ghost use Rattle.checker.specs.Replays.{AnswersFrom, Performs, OnlyAnswers, NeverOverclaimed, RunsExist, OrderFree};

use crate::checker::{Checker, Opened};
use book::calls::{Answer, Call};
use constraints::fault::Fault;
use isa::repertoire::Repertoire;
use runs::valuations::Valuations;
use std::alloc::AllocError;

// Makes each call in turn, and adds its answer.
fn perform<R: Repertoire>(
    checker: &mut Checker<R>,
    calls: &[Call],
    answers: &mut Vec<Result<Answer, Fault>>,
)
    requires room { vec_len answers.old + length calls.now ≤ vec_capacity answers.old }
    ensures performs { (b : Book) → Stands checker.old b → Performs (rules_of (R.Repertoire.map checker.old.repertoire) checker.old) b calls.now answers.old.items answers.new.items checker.new }
{
    for call in calls {
        answers.push_reserved(checker.call(*call));
    }
}

// Opens a checker, makes each call in turn, and adds the answers; answers itself why the checker was closed at once, if it was.
#[tactic(auto, using(soundness::proofs::Accepted::some_run))]
pub fn replay<R: Repertoire + Drop>(
    repertoire: R,
    lawful: Valuations,
    calls: &[Call],
    answers: &mut Vec<Result<Answer, Fault>>,
) -> Result<Option<Fault>, AllocError>
    ensures opening { IfOk result (λ o. o ≡ opening lawful) }
    ensures answers_as_the_book { MatchResult result (λ _. AnswersFrom (rules_on (R.Repertoire.map repertoire) lawful) (opened lawful) calls.now answers.old.items answers.new.items) (λ _. answers.new.items ≡ answers.old.items) }
    ensures only_answers { OnOk result (OnlyAnswers (rules_on (R.Repertoire.map repertoire) lawful) calls.now answers.old.items answers.new.items) }
    ensures some_answer { SomeAnswer }
    ensures never_overclaimed { OnOk result (NeverOverclaimed (rules_on (R.Repertoire.map repertoire) lawful) calls.now answers.old.items answers.new.items) }
    ensures runs_exist { RunsExist lawful }
    ensures slot_order_free { OnOk result (OrderFree (rules_on (R.Repertoire.map repertoire) lawful) calls.now answers.old.items answers.new.items) }
    ensures succeeds { vec_len answers.old + length calls.now ≤ vec_capacity answers.old → is_ok result ≡ true }
{
    answers.reserve(calls.len())?;
    let Opened {
        mut checker,
        refused,
    } = Checker::open(repertoire, lawful);
    perform(&mut checker, calls, answers);
    Ok(refused)
}
