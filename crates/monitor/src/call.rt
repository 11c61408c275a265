//! The calls. Each is lent a sheet, and answers four numbers.
ghost use Rattle.std.specs.Prelude.{◌≡◌, ◌≤◌, Some, Err, [], ◌∷◌, length};
ghost use Rattle.register.specs.Lists.{first};
ghost use Rattle.machine.specs.State.{is_access};
ghost use Rattle.tables.specs.Tables.{scene_of};
ghost use Rattle.records.specs.Numbers.{returned_number};
ghost use Rattle.records.specs.declared.Kind.TheVariants.{Opened, Ended};
ghost use Rattle.records.specs.declared.Call.TheVariants.{Open, Use, Duty, End, Time, SetRoom, Grant, SetBadge, SetLot, DropBadge, DropLot};
ghost use Rattle.machine.specs.Lines.{opening_line, closing_line};
ghost use Rattle.machine.specs.Sweep.{close, sweep};
ghost use Rattle.machine.specs.Report.{Reported};
ghost use Rattle.machine.specs.Step.{step, accepted, opened, open_denial, unless_denied, unless_refused};
ghost use Rattle.monitor.specs.Answered.{policy_by, state_by, entered_under, CanOpen, Makes, Steps};

use crate::Monitor;
use records::{Access, Answer, Call, Kind, Line, Refusal};
use tables::line::{closing_line, hold_of, opening_line};
use usage::order::Order;
use usage::purse::Purse;
use usage::rule::Rule;

// The cause on the line of an open that is denied for want of credit: above the number of every rule.
const NO_CREDIT: u16 = 256;

#[tactic(auto, using(crate::proofs::Calls::scene_call))]
impl<R: Rule, O: Order, P: Purse> Monitor<R, O, P> {
    /// A badge opens a lot under a right, and holds units of credit.
    pub fn open(
        &mut self,
        sheet: &mut [Line],
        badge: u32,
        lot: [u8; 8],
        right: u32,
        units: u32,
    ) -> Answer
        ensures { Steps R.Rule.opening R.Rule.staying O.Order.before P.Purse.books (Open badge lot right units) self.old sheet.old result self.new sheet.new }
    {
        match self.tables.asked_for(sheet.len(), badge, lot, right, units) {
            Ok(access) => self.decide(sheet, &access),
            Err(refusal) => refused(refusal),
        }
    }

    /// Units are used of an open access.
    pub fn use_units(&mut self, sheet: &mut [Line], serial: u32, units: u32) -> Answer
        ensures { Steps R.Rule.opening R.Rule.staying O.Order.before P.Purse.books (Use serial units) self.old sheet.old result self.new sheet.new }
    {
        let returned = self.tables.use_units(sheet.len(), serial, units);
        self.finish(sheet, returned)
    }

    /// The duty of an open access is done.
    pub fn duty(&mut self, sheet: &mut [Line], serial: u32) -> Answer
        ensures { Steps R.Rule.opening R.Rule.staying O.Order.before P.Purse.books (Duty serial) self.old sheet.old result self.new sheet.new }
    {
        let returned = self.tables.duty(sheet.len(), serial);
        self.finish(sheet, returned)
    }

    /// An open access is ended.
    pub fn end(&mut self, sheet: &mut [Line], serial: u32) -> Answer
        ensures { Steps R.Rule.opening R.Rule.staying O.Order.before P.Purse.books (End serial) self.old sheet.old result self.new sheet.new }
    {
        match self.tables.named(sheet.len(), serial) {
            Ok(access) => self.end_access(sheet, &access),
            Err(refusal) => refused(refusal),
        }
    }

    /// Time goes on by some minutes.
    pub fn time(&mut self, sheet: &mut [Line], minutes: u32) -> Answer
        ensures { Steps R.Rule.opening R.Rule.staying O.Order.before P.Purse.books (Time minutes) self.old sheet.old result self.new sheet.new }
    {
        let returned = self.tables.time(sheet.len(), minutes);
        self.finish(sheet, returned)
    }

    /// The room has a temperature, in tenths of a degree Celsius, and a phase.
    pub fn room(&mut self, sheet: &mut [Line], temperature: i64, phase: u32) -> Answer
        ensures { Steps R.Rule.opening R.Rule.staying O.Order.before P.Purse.books (SetRoom temperature phase) self.old sheet.old result self.new sheet.new }
    {
        let returned = self.tables.set_room(sheet.len(), temperature, phase);
        self.finish(sheet, returned)
    }

    /// An account is granted an amount.
    pub fn grant(&mut self, sheet: &mut [Line], account: u32, amount: u32) -> Answer
        ensures { Steps R.Rule.opening R.Rule.staying O.Order.before P.Purse.books (Grant account amount) self.old sheet.old result self.new sheet.new }
    {
        if sheet.len() < 65 {
            return refused(Refusal::ShortSheet);
        }
        let returned = self.purse.add(account, amount);
        self.finish(sheet, returned)
    }

    /// A badge goes in, or replaces the one with its number.
    pub fn set_badge(
        &mut self,
        sheet: &mut [Line],
        number: u32,
        level: u32,
        role: u32,
        account: u32,
    ) -> Answer
        ensures { Steps R.Rule.opening R.Rule.staying O.Order.before P.Purse.books (SetBadge number level role account) self.old sheet.old result self.new sheet.new }
    {
        let returned = self
            .tables
            .set_badge(sheet.len(), number, level, role, account);
        self.finish(sheet, returned)
    }

    /// A lot goes in without heads, or replaces the one with its code but for the heads.
    pub fn set_lot(
        &mut self,
        sheet: &mut [Line],
        code: [u8; 8],
        level: u32,
        role: u32,
        stop: u32,
        limit: u32,
        prices: [u32; 4],
    ) -> Answer
        ensures { Steps R.Rule.opening R.Rule.staying O.Order.before P.Purse.books (SetLot code level role stop limit prices) self.old sheet.old result self.new sheet.new }
    {
        let returned = self
            .tables
            .set_lot(sheet.len(), code, level, role, stop, limit, prices);
        self.finish(sheet, returned)
    }

    /// The badge of a number goes out.
    pub fn drop_badge(&mut self, sheet: &mut [Line], number: u32) -> Answer
        ensures { Steps R.Rule.opening R.Rule.staying O.Order.before P.Purse.books (DropBadge number) self.old sheet.old result self.new sheet.new }
    {
        let returned = self.tables.drop_badge(sheet.len(), number);
        self.finish(sheet, returned)
    }

    /// The lot of a code goes out.
    pub fn drop_lot(&mut self, sheet: &mut [Line], code: [u8; 8]) -> Answer
        ensures { Steps R.Rule.opening R.Rule.staying O.Order.before P.Purse.books (DropLot code) self.old sheet.old result self.new sheet.new }
    {
        let returned = self.tables.drop_lot(sheet.len(), code);
        self.finish(sheet, returned)
    }

    /// Any call. It reports its staying questions by the formula, writes at most 65 lines and leaves at most 64 accesses
    /// open.
    pub fn apply(&mut self, sheet: &mut [Line], call: Call) -> Answer
        ensures step { Steps R.Rule.opening R.Rule.staying O.Order.before P.Purse.books call self.old sheet.old result self.new sheet.new }
        ensures reported { Reported (step (policy_by R.Rule.opening R.Rule.staying O.Order.before self.old) (state_by P.Purse.books self.old) (length sheet.old) call) }
    {
        self.call(sheet, call)
    }

    fn call(&mut self, sheet: &mut [Line], call: Call) -> Answer
        ensures { Steps R.Rule.opening R.Rule.staying O.Order.before P.Purse.books call self.old sheet.old result self.new sheet.new }
    {
        match call {
            Call::Open {
                badge,
                lot,
                right,
                units,
            } => self.open(sheet, badge, lot, right, units),
            Call::Use { serial, units } => self.use_units(sheet, serial, units),
            Call::Duty { serial } => self.duty(sheet, serial),
            Call::End { serial } => self.end(sheet, serial),
            Call::Time { minutes } => self.time(sheet, minutes),
            Call::SetRoom { temperature, phase } => self.room(sheet, temperature, phase),
            Call::Grant { account, amount } => self.grant(sheet, account, amount),
            Call::SetBadge {
                number,
                level,
                role,
                account,
            } => self.set_badge(sheet, number, level, role, account),
            Call::SetLot {
                code,
                level,
                role,
                stop,
                limit,
                prices,
            } => self.set_lot(sheet, code, level, role, stop, limit, prices),
            Call::DropBadge { number } => self.drop_badge(sheet, number),
            Call::DropLot { code } => self.drop_lot(sheet, code),
        }
    }

    // The opening question is put, then the purse holds, and the access is opened.
    fn decide(&mut self, sheet: &mut [Line], access: &Access) -> Answer
        requires { CanOpen access.now (state_by P.Purse.books self.old) sheet.old }
        ensures { Makes P.Purse.books (unless_denied (open_denial (policy_by R.Rule.opening R.Rule.staying O.Order.before self.old) (state_by P.Purse.books self.old) access.now) (state_by P.Purse.books self.old) (accepted access.now.serial (opening_line Opened access.now.serial (state_by P.Purse.books self.old).scene.room.clock 0 access.now ∷ []) (sweep (policy_by R.Rule.opening R.Rule.staying O.Order.before self.old) (opened access.now (state_by P.Purse.books self.old))))) self.old sheet.old result self.new sheet.new }
    {
        let minute = self.tables.room().clock;
        if let Err(failed) = self.policy.rule.ask_opening(&self.tables.situation(access)) {
            sheet[0] = opening_line(Kind::Denied, 0, minute, u16::from(failed.0.get()), access);
            return denied(Refusal::QuestionFails);
        }
        if self
            .purse
            .hold(u32::from(access.account), hold_of(access))
            .is_err()
        {
            sheet[0] = opening_line(Kind::Denied, 0, minute, NO_CREDIT, access);
            return denied(Refusal::CreditShort);
        }
        self.admit(sheet, access)
    }

    // An access whose hold is held is opened.
    fn admit(&mut self, sheet: &mut [Line], access: &Access) -> Answer
        requires { CanOpen access.now (state_by P.Purse.books self.old) sheet.old }
        ensures { Makes P.Purse.books (accepted access.now.serial (opening_line Opened access.now.serial (state_by P.Purse.books self.old).scene.room.clock 0 access.now ∷ []) (sweep (policy_by R.Rule.opening R.Rule.staying O.Order.before self.old) (entered_under access.now (state_by P.Purse.books self.old)))) self.old sheet.old result self.new sheet.new }
    {
        let minute = self.tables.room().clock;
        sheet[0] = opening_line(Kind::Opened, access.serial, minute, 0, access);
        let _ = self.tables.enter(access);
        let (lines, questions) = self.sweep(sheet, 1);
        Answer {
            returned: Ok(()),
            lines: lines + 1,
            serial: access.serial,
            questions,
        }
    }

    // An open access is closed by a line of its end.
    fn end_access(&mut self, sheet: &mut [Line], access: &Access) -> Answer
        requires room { 65 ≤ length sheet.old }
        requires open_now { first (is_access access.now.serial) (scene_of self.old.tables).accesses ≡ Some access.now }
        ensures { Makes P.Purse.books (accepted 0 (closing_line Ended (state_by P.Purse.books self.old).scene.room.clock 0 access.now ∷ []) (sweep (policy_by R.Rule.opening R.Rule.staying O.Order.before self.old) (close access.now (state_by P.Purse.books self.old)))) self.old sheet.old result self.new sheet.new }
    {
        let minute = self.tables.room().clock;
        sheet[0] = closing_line(Kind::Ended, minute, 0, access);
        self.close(access);
        let (lines, questions) = self.sweep(sheet, 1);
        Answer {
            returned: Ok(()),
            lines: lines + 1,
            serial: 0,
            questions,
        }
    }

    // The rest of a call that writes no line of its own: where it was accepted, it sweeps.
    fn finish(&mut self, sheet: &mut [Line], returned: Result<(), Refusal>) -> Answer
        requires { returned_number returned ≡ 0 → 65 ≤ length sheet.old }
        ensures { Makes P.Purse.books (unless_refused (returned_number returned) (state_by P.Purse.books self.old) (accepted 0 [] (sweep (policy_by R.Rule.opening R.Rule.staying O.Order.before self.old) (state_by P.Purse.books self.old)))) self.old sheet.old result self.new sheet.new }
    {
        if let Err(refusal) = returned {
            return refused(refusal);
        }
        let (lines, questions) = self.sweep(sheet, 0);
        Answer {
            returned,
            lines,
            serial: 0,
            questions,
        }
    }
}

// What a call answers that is refused: it writes nothing. A call answers its four numbers whatever it returned, so that a
// refusal ends in an answer and not in `?`.
fn refused(refusal: Refusal) -> Answer
    ensures { result ≡ record { returned = Err refusal; lines = 0; serial = 0; questions = 0 } }
{
    Answer {
        returned: Err(refusal),
        lines: 0,
        serial: 0,
        questions: 0,
    }
}

// What an open answers that is denied: it writes one line.
fn denied(refusal: Refusal) -> Answer
    ensures { result ≡ record { returned = Err refusal; lines = 1; serial = 0; questions = 0 } }
{
    Answer {
        lines: 1,
        ..refused(refusal)
    }
}
