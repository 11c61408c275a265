//! The journal of a shift: each call with its fields, what it answered, and the lines that it wrote.
#![tactic(auto)]

ghost use Rattle.std.specs.Prelude.{◌≡◌, ◌<◌, List, [], ◌∷◌, ◌++◌, map, length, vec_len, MatchResult, OnOk, OnErr};
ghost use Rattle.records.specs.declared.Badge.{Badge};
ghost use Rattle.records.specs.declared.Lot.{Lot};
ghost use Rattle.machine.specs.Step.{step};
ghost use Rattle.machine.specs.Law.{New, Lawful};
ghost use Rattle.monitor.specs.Answered.{policy_by, state_by};
ghost use Rattle.journal.specs.Notes.{noted, noted_in, replayed, NotedTo};

use monitor::Monitor;
use records::{Answer, Call, Kind, Line, Right};
use std::alloc::{AllocError, Global};
use usage::order::Order;
use usage::purse::Purse;
use usage::rule::Rule;

// A line of a sheet on which nothing is written yet. It is written out, since no kind of line is the usual one.
const BLANK: Line = Line {
    kind: Kind::Denied,
    serial: 0,
    badge: 0,
    lot: [0; 8],
    right: Right::Read,
    minute: 0,
    cause: 0,
    amount: 0,
    units: 0,
    account: 0,
};

/// A call, what it answered, and the lines that it wrote.
#[derive(Drop)]
pub struct Entry {
    pub call: Call,
    pub answer: Answer,
    pub lines: Vec<Line>,
}

/// The entries of the calls that were made, in turn, and whether those were all.
#[derive(Drop)]
pub struct Journal {
    entries: Vec<Entry>,
    ended: Result<(), AllocError>,
}

impl Journal {
    /// An entry for each call that was made, in turn.
    pub fn entries(&self) -> &[Entry]
        ensures { result.now ≡ self.now.entries.items }
    {
        &self.entries
    }

    /// Whether all calls were made, or there was no memory for an entry.
    pub fn ended(&self) -> Result<(), AllocError>
        ensures { result ≡ self.now.ended }
    {
        self.ended
    }
}

/// Makes the calls in turn, each at a sheet of 65 lines, and keeps the journal. Where there is no memory for an entry,
/// neither its call nor a later one is made.
pub fn run<R: Rule, O: Order, P: Purse>(
    heap: Global,
    monitor: &mut Monitor<R, O, P>,
    calls: &[Call],
) -> Journal
    ensures law { (badges : List Badge) (lots : List Lot) → New badges lots (state_by P.Purse.books monitor.old) → Lawful (policy_by R.Rule.opening R.Rule.staying O.Order.before monitor.old) badges lots (P.Purse.books monitor.old.purse).homes (map replayed result.entries.items) (state_by P.Purse.books monitor.new) }
    ensures noted { NotedTo (policy_by R.Rule.opening R.Rule.staying O.Order.before monitor.old) (state_by P.Purse.books monitor.old) calls.now (vec_len result.entries) result.entries.items (state_by P.Purse.books monitor.new) }
    ensures all { OnOk result.ended (vec_len result.entries ≡ length calls.now) }
    ensures not_all { OnErr result.ended (vec_len result.entries < length calls.now) }
    ensures policy { monitor.new.policy ≡ monitor.old.policy }
{
    let mut entries = Vec::new(heap);
    let ended = note_all(heap, monitor, calls, &mut entries);
    Journal { entries, ended }
}

// Makes the calls in turn, and notes each, until there is no memory for an entry.
fn note_all<R: Rule, O: Order, P: Purse>(
    heap: Global,
    monitor: &mut Monitor<R, O, P>,
    calls: &[Call],
    entries: &mut Vec<Entry>,
) -> Result<(), AllocError>
    requires { entries.old.items ≡ [] }
    ensures noted { NotedTo (policy_by R.Rule.opening R.Rule.staying O.Order.before monitor.old) (state_by P.Purse.books monitor.old) calls.now (vec_len entries.new) entries.new.items (state_by P.Purse.books monitor.new) }
    ensures all { OnOk result (vec_len entries.new ≡ length calls.now) }
    ensures not_all { OnErr result (vec_len entries.new < length calls.now) }
    ensures policy { monitor.new.policy ≡ monitor.old.policy }
{
    for call in calls {
        note(heap, monitor, *call, entries)?;
    }
    Ok(())
}

// Makes a call and notes it. Where there is no memory for the entry, nothing is done.
fn note<R: Rule, O: Order, P: Purse>(
    heap: Global,
    monitor: &mut Monitor<R, O, P>,
    call: Call,
    entries: &mut Vec<Entry>,
) -> Result<(), AllocError>
    ensures ok { OnOk result ((map noted_in entries.new.items ≡ map noted_in entries.old.items ++ noted call (step (policy_by R.Rule.opening R.Rule.staying O.Order.before monitor.old) (state_by P.Purse.books monitor.old) 65 call) ∷ []) × (state_by P.Purse.books monitor.new ≡ (step (policy_by R.Rule.opening R.Rule.staying O.Order.before monitor.old) (state_by P.Purse.books monitor.old) 65 call).after)) }
    ensures err { OnErr result ((entries.new.items ≡ entries.old.items) × (monitor.new ≡ monitor.old)) }
    ensures policy { monitor.new.policy ≡ monitor.old.policy }
{
    entries.reserve(1)?;
    let entry = make_call(heap, monitor, call)?;
    entries.push_reserved(entry);
    Ok(())
}

// Makes a call at a sheet of its own, of which the lines that it wrote are kept. Where there is no memory for the
// sheet, the call is not made.
fn make_call<R: Rule, O: Order, P: Purse>(
    heap: Global,
    monitor: &mut Monitor<R, O, P>,
    call: Call,
) -> Result<Entry, AllocError>
    ensures made { MatchResult result (λ e. (noted_in e ≡ noted call (step (policy_by R.Rule.opening R.Rule.staying O.Order.before monitor.old) (state_by P.Purse.books monitor.old) 65 call)) × (state_by P.Purse.books monitor.new ≡ (step (policy_by R.Rule.opening R.Rule.staying O.Order.before monitor.old) (state_by P.Purse.books monitor.old) 65 call).after)) (λ _. monitor.new ≡ monitor.old) }
    ensures policy { monitor.new.policy ≡ monitor.old.policy }
{
    let mut lines = Vec::from_elem(heap, BLANK, 65)?;
    let answer = monitor.apply(&mut lines, call);
    lines.truncate(answer.lines as usize);
    Ok(Entry {
        call,
        answer,
        lines,
    })
}
