// The rules, each by what its premises may have.
ghost use Rattle.std.specs.Prelude.{◌≢◌};
ghost use Rattle.sequents.specs.Numbered.{rule_number};
ghost use Rattle.sequents.specs.Rooms.{PlanOf};

use super::rooms::{Conclusion, More, Plan, Room};
use super::rule::SequentRule;
use pltl::{Dual, Shape};

impl Conclusion {
    // What the premises of a rule may have. Next has no principal formula. A match over all rules, and no table of functions:
    // each has a contract of its own.
    pub(crate) fn plan(self, rule: SequentRule) -> Option<Plan>
        requires { rule ≢ SequentRule.Next }
        ensures { PlanOf (rule_number rule) self result }
    {
        match rule {
            SequentRule::Contra => self.contra(),
            SequentRule::False => self.falsum(),
            SequentRule::And => self.and(),
            SequentRule::Or => self.or(),
            SequentRule::Always => self.always(),
            SequentRule::Some => self.some(),
            SequentRule::Until => self.until(),
            SequentRule::Release => self.release(),
            SequentRule::SomeAgain => self.some_again(),
            SequentRule::UntilAgain => self.until_again(),
            SequentRule::Next => None,
        }
    }

    // Any m with its opposite in D: no premises.
    fn contra(self) -> Option<Plan>
        ensures { PlanOf 1 self result }
    {
        if self.d.contains(self.m.dual()) {
            Some(Plan::Closed)
        } else {
            None
        }
    }

    // False: no premises.
    fn falsum(self) -> Option<Plan>
        ensures { PlanOf 2 self result }
    {
        match self.shape {
            Shape::False => Some(Plan::Closed),
            _ => None,
        }
    }

    // A & B: D, A, B.
    fn and(self) -> Option<Plan>
        ensures { PlanOf 3 self result }
    {
        let Conclusion { shape, d, .. } = self;
        let Shape::And(a, b) = shape else {
            return None;
        };
        Some(Plan::One(Room::of(d.with(a).with(b))))
    }

    // A | B: D, A; and D, B.
    fn or(self) -> Option<Plan>
        ensures { PlanOf 4 self result }
    {
        let Conclusion { shape, d, .. } = self;
        let Shape::Or(a, b) = shape else {
            return None;
        };
        Some(Plan::Two(Room::of(d.with(a)), Room::of(d.with(b))))
    }

    // G A: D, A, X G A.
    fn always(self) -> Option<Plan>
        ensures { PlanOf 5 self result }
    {
        let Conclusion { m, shape, d } = self;
        let Shape::Always(a) = shape else {
            return None;
        };
        Some(Plan::One(Room::with_next(d.with(a), m)))
    }

    // F A: D, A; and D, X F A.
    fn some(self) -> Option<Plan>
        ensures { PlanOf 6 self result }
    {
        let Conclusion { m, shape, d } = self;
        let Shape::Eventually(a) = shape else {
            return None;
        };
        Some(Plan::Two(Room::of(d.with(a)), Room::with_next(d, m)))
    }

    // A U B: D, B; and D, A, X(A U B).
    fn until(self) -> Option<Plan>
        ensures { PlanOf 7 self result }
    {
        let Conclusion { m, shape, d } = self;
        let Shape::Until(a, b) = shape else {
            return None;
        };
        Some(Plan::Two(Room::of(d.with(b)), Room::with_next(d.with(a), m)))
    }

    // A R B: D, A, B; and D, B, X(A R B).
    fn release(self) -> Option<Plan>
        ensures { PlanOf 8 self result }
    {
        let Conclusion { m, shape, d } = self;
        let Shape::Release(a, b) = shape else {
            return None;
        };
        Some(Plan::Two(Room::of(d.with(a).with(b)), Room::with_next(d.with(b), m)))
    }

    // F A: D, A; and D with any X(N U A).
    fn some_again(self) -> Option<Plan>
        ensures { PlanOf 9 self result }
    {
        let Conclusion { shape, d, .. } = self;
        let Shape::Eventually(a) = shape else {
            return None;
        };
        Some(Plan::Two(
            Room::of(d.with(a)),
            Room {
                set: d,
                more: More::SomeAgain(a),
            },
        ))
    }

    // A U B: D, B; and D, A with any X((A & N) U B).
    fn until_again(self) -> Option<Plan>
        ensures { PlanOf 10 self result }
    {
        let Conclusion { shape, d, .. } = self;
        let Shape::Until(a, b) = shape else {
            return None;
        };
        Some(Plan::Two(
            Room::of(d.with(b)),
            Room {
                set: d.with(a),
                more: More::UntilAgain(a, b),
            },
        ))
    }
}
