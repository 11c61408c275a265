//! The monitor over any rule, order and purse: its calls, each proved to be the machine's step.
#![tactic(auto)]

ghost use Rattle.std.specs.Prelude.{◌≡◌, ◌+◌, ◌≤◌, Some, length, MatchResult};
ghost use Rattle.machine.specs.Sweep.{close, sweep};
ghost use Rattle.machine.specs.Checks.{first_applying};
ghost use Rattle.machine.specs.Report.{questions_of};
ghost use Rattle.tables.specs.Made.{unmade_number, maker_checks, Made};
ghost use Rattle.tables.specs.Tables.{scene_of};
ghost use Rattle.register.specs.Lists.{first};
ghost use Rattle.machine.specs.State.{is_access};
ghost use Rattle.monitor.specs.Answered.{policy_by, state_by, SweptBy};

use crate::policy::Policy;
use records::{Access, Badge, Kind, Line, Lot};
use tables::line::{charge_of, closing_line, hold_of};
use tables::table::Tables;
use tables::table::make::Unmade;
use usage::order::Order;
use usage::purse::Purse;
use usage::rule::Rule;

pub mod call;
mod policy;

/// A monitor over a rule, an order of revocation and a purse.
#[derive(Drop)]
pub struct Monitor<R, O, P> {
    policy: Policy<R, O>,
    purse: P,
    tables: Tables,
}

impl<R: Rule + Drop, O: Order + Drop, P: Purse + Drop> Monitor<R, O, P> {
    /// A monitor with a first serial from 1 to 1,000,000,000 and registers, which may be empty, over a rule, an order and
    /// a purse. The registers are in range, in order and without heads; else nothing is made.
    pub fn new(
        first_serial: u32,
        badges: &[Badge],
        lots: &[Lot],
        rule: R,
        order: O,
        purse: P,
    ) -> Result<Monitor<R, O, P>, Unmade>
        ensures { MatchResult result (λ m. (first_applying (maker_checks first_serial badges.now lots.now) ≡ 0) × Made first_serial badges.now lots.now m.tables × (m.policy.rule ≡ rule) × (m.policy.order ≡ order) × (m.purse ≡ purse)) (λ e. unmade_number e ≡ first_applying (maker_checks first_serial badges.now lots.now)) }
    {
        let tables = Tables::new(first_serial, badges, lots)?;
        Ok(Monitor {
            policy: Policy { rule, order },
            purse,
            tables,
        })
    }
}

impl<R: Rule, O: Order, P: Purse> Monitor<R, O, P> {
    /// The badges, lots, open accesses, room and next serial.
    pub fn tables(&self) -> &Tables
        ensures { result.now ≡ self.now.tables }
    {
        &self.tables
    }

    /// The purse.
    pub fn purse(&self) -> &P
        ensures { result.now ≡ self.now.purse }
    {
        &self.purse
    }

    // Closes an open access: its hold is settled, its lot has one head fewer, and it is struck.
    fn close(&mut self, access: &Access)
        requires { first (is_access access.now.serial) (scene_of self.old.tables).accesses ≡ Some access.now }
        ensures state { state_by P.Purse.books self.new ≡ close access.now (state_by P.Purse.books self.old) }
        ensures policy { self.new.policy ≡ self.old.policy }
    {
        self.tables.strike(access.serial);
        let _ = self.purse.settle(
            u32::from(access.account),
            hold_of(access),
            charge_of(access),
        );
    }

    // While some open access fails its staying question, the first in the order among those is revoked. Lines are
    // written from a place of the sheet on. Answers how many, a number of the call's answer, and how many questions were put.
    fn sweep(&mut self, sheet: &mut [Line], from: usize) -> (u32, u32)
        requires { from + length (state_by P.Purse.books self.old).scene.accesses ≤ length sheet.old }
        ensures swept { SweptBy (sweep (policy_by R.Rule.opening R.Rule.staying O.Order.before self.old) (state_by P.Purse.books self.old)) from result (state_by P.Purse.books self.new) sheet.old sheet.new }
        ensures formula { result.1 ≡ questions_of (length (state_by P.Purse.books self.old).scene.accesses) result.0 }
        ensures few { result.0 ≤ 64 }
        ensures policy { self.new.policy ≡ self.old.policy }
    {
        let mut lines = 0;
        let mut questions = 0;
        while let Some(failing) = self.policy.first_failing(&self.tables, &mut questions) {
            let minute = self.tables.room().clock;
            sheet[from + lines as usize] = closing_line(
                Kind::Revoked,
                minute,
                u16::from(failing.cause),
                &failing.access,
            );
            self.close(&failing.access);
            lines += 1;
        }
        (lines, questions)
    }
}
