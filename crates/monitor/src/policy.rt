//! What a monitor asks by, and the staying questions of one round of a sweep.
ghost use Rattle.std.specs.Prelude.{◌≡◌, ◌+◌, ◌<◌, ◌≤◌, Some, length};
ghost use Rattle.machine.specs.Sweep.{to_revoke};
ghost use Rattle.tables.specs.Tables.{scene_of};
ghost use Rattle.usage.specs.Rules.{answer_number};
ghost use Rattle.monitor.specs.Answered.{policy_of};
ghost use Rattle.monitor.specs.Failing.{with_cause, ahead};

use records::{Access, Situation};
use tables::table::Tables;
use usage::order::Order;
use usage::rule::{Failed, Rule};

/// A rule and an order of revocation.
#[derive(Drop)]
pub struct Policy<R, O> {
    pub rule: R,
    pub order: O,
}

/// An open access that fails its staying question, with the number of the rule that fails.
#[derive(Clone, Copy)]
pub struct Failing {
    pub access: Access,
    pub cause: u8,
}

impl<R: Rule, O: Order> Policy<R, O> {
    /// Of the open accesses that fail their staying question, the first in the order. Each is questioned once.
    pub fn first_failing(&self, tables: &Tables, questions: &mut u32) -> Option<Failing>
        requires { questions.old ≤ 4294967231 }
        ensures failing { result ≡ with_cause (policy_of (R.Rule.opening self.now.rule) (R.Rule.staying self.now.rule) (O.Order.before self.now.order)) (scene_of tables.now) (to_revoke (policy_of (R.Rule.opening self.now.rule) (R.Rule.staying self.now.rule) (O.Order.before self.now.order)) (scene_of tables.now)) }
        ensures counted { questions.new ≡ questions.old + length (scene_of tables.now).accesses }
    {
        let mut foremost = None;
        for access in tables.accesses() {
            if let Err(failed) = self.put_question(&tables.situation(access), questions) {
                let failing = Failing {
                    access: *access,
                    cause: failed.0.get(),
                };
                foremost = Some(self.ahead(failing, foremost));
            }
        }
        foremost
    }

    // One staying question is put: the rule's answer, and one question more.
    fn put_question(&self, situation: &Situation, questions: &mut u32) -> Result<(), Failed>
        requires { questions.old < 4294967295 }
        ensures answer { answer_number result ≡ R.Rule.staying self.now.rule situation.now }
        ensures counted { questions.new ≡ questions.old + 1 }
    {
        *questions += 1;
        self.rule.ask_staying(situation)
    }

    // Of a failing access and the foremost so far, the one that goes first.
    fn ahead(&self, failing: Failing, foremost: Option<Failing>) -> Failing
        ensures { Some result ≡ ahead (O.Order.before self.now.order) failing foremost }
    {
        match foremost {
            Some(best) if !self.order.goes_before(&failing.access, &best.access) => best,
            _ => failing,
        }
    }
}
